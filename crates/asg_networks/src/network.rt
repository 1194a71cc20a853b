//! What is kept of the lines of an asn file.

ghost use Rattle.std.specs.Prelude.{◌≡◌, ◌==◌, ℕ, [], ◌∷◌, ◌++◌, if◌then◌else◌, true, IfOk, OnOk, IfErr, OnErr};
ghost use Rattle.asg_networks.specs.AsnArcs.{is_node, goes_right, with_id};
ghost use Rattle.asg_networks.specs.AsnLines.{IsLineInRange};
ghost use Rattle.asg_networks.specs.Networks.{IsSound, IsNetworkOf, TakesLine, RefusesLine, RefusesOwn, PutsArc, PutsSource};
ghost use Rattle.asg_networks.specs.NodeSets.{has};

use crate::asn_lines::{Arc, Line, Sizes};
use crate::links::{Link, earliest};
use crate::node_sets::NodeSet;
use asg_tokens::TextRefusal;
use std::alloc::Global;

/// The sizes that are stated, the sources in the order of their first lines, and the arcs.
#[derive(Drop)]
pub(crate) struct Network {
    pub(crate) sizes: Option<Sizes>,
    pub(crate) sources: Vec<u32>,
    pub(crate) links: Vec<Link>,
    pub(crate) source_set: NodeSet,
    target_set: NodeSet,
}

impl Network {
    /// Before the first line.
    pub(crate) fn new(alloc: Global) -> Result<Network, TextRefusal>
        ensures none { IfOk result (IsNetworkOf []) }
        ensures sound { IfOk result IsSound }
        ensures refused { IfErr result (λ refusal. refusal ≡ TextRefusal.NoMemory) }
    {
        Ok(Network {
            sizes: None,
            sources: Vec::new(alloc),
            links: Vec::new(alloc),
            source_set: NodeSet::new(alloc)?,
            target_set: NodeSet::new(alloc)?,
        })
    }

    /// Takes what a line with this number says, or refuses all lines up to it for their earliest
    /// fault. A line that has no fault but that its arc repeats another at another cost is taken.
    pub(crate) fn take(&mut self, alloc: Global, line: Line, number: u64) -> Result<(), TextRefusal>
        requires sound { IsSound self.old }
        requires in_range { IsLineInRange line }
        ensures taken { OnOk result (TakesLine number line self.old self.new) }
        ensures refused { IfErr result (RefusesLine number line self.old) }
        ensures sound { OnOk result (IsSound self.new) }
    {
        match self.put_line(line, number) {
            Ok(()) => Ok(()),
            Err(refusal) => Err(earliest(alloc, self.links.as_slice(), refusal)),
        }
    }

    // Takes what a line says, or refuses it for its earliest fault.
    fn put_line(&mut self, line: Line, number: u64) -> Result<(), TextRefusal>
        requires sound { IsSound self.old }
        requires in_range { IsLineInRange line }
        ensures taken { OnOk result (TakesLine number line self.old self.new) }
        ensures refused { IfErr result (RefusesOwn number line self.old) }
        ensures sound { OnOk result (IsSound self.new) }
        ensures kept { OnErr result (self.new.links.items ≡ self.old.links.items) }
    {
        match line {
            Line::Empty => Ok(()),
            Line::Header(sizes) => self.take_sizes(sizes, number),
            Line::Node(id) => self.take_node(id, number),
            Line::Arrow(arc) => self.take_arc(arc, number),
            Line::Other => Err(TextRefusal::BadLine(number)),
        }
    }

    // Takes the sizes of a problem line.
    fn take_sizes(&mut self, sizes: Option<Sizes>, number: u64) -> Result<(), TextRefusal>
        requires sound { IsSound self.old }
        ensures taken { OnOk result (TakesLine number (Line.Header sizes) self.old self.new) }
        ensures refused { IfErr result (RefusesOwn number (Line.Header sizes) self.old) }
        ensures sound { OnOk result (IsSound self.new) }
        ensures kept { OnErr result (self.new.links.items ≡ self.old.links.items) }
    {
        if self.sizes.is_some() {
            return Err(TextRefusal::SecondProblemLine(number));
        }
        if sizes.is_none() {
            return Err(TextRefusal::BadLine(number));
        }
        self.sizes = sizes;
        Ok(())
    }

    // Takes the node of a node line.
    fn take_node(&mut self, id: Option<u32>, number: u64) -> Result<(), TextRefusal>
        requires sound { IsSound self.old }
        ensures taken { OnOk result (TakesLine number (Line.Node id) self.old self.new) }
        ensures refused { IfErr result (RefusesOwn number (Line.Node id) self.old) }
        ensures sound { OnOk result (IsSound self.new) }
        ensures kept { OnErr result (self.new.links.items ≡ self.old.links.items) }
    {
        let Some(sizes) = self.sizes else {
            return Err(TextRefusal::BadLine(number));
        };
        let Some(id) = id else {
            return Err(TextRefusal::BadNode(number));
        };
        if !is_node(sizes, id) {
            return Err(TextRefusal::BadNode(number));
        }
        if self.target_set.has(id) {
            return Err(TextRefusal::BadNode(number));
        }
        self.put_source(id)?;
        Ok(())
    }

    // Keeps a source, unless it is one.
    fn put_source(&mut self, id: u32) -> Result<(), TextRefusal>
        requires { IsSound self.old }
        ensures put { OnOk result (PutsSource id self.old self.new) }
        ensures refused { IfErr result (λ refusal. refusal ≡ TextRefusal.NoMemory) }
        ensures kept { OnErr result (self.new.links.items ≡ self.old.links.items) }
    {
        if self.source_set.has(id) {
            return Ok(());
        }
        self.source_set.insert(id)?;
        self.sources.push(id)?;
        Ok(())
    }

    // Takes the arc of an arc line.
    fn take_arc(&mut self, arc: Option<Arc>, number: u64) -> Result<(), TextRefusal>
        requires sound { IsSound self.old }
        requires in_range { IsLineInRange (Line.Arrow arc) }
        ensures taken { OnOk result (TakesLine number (Line.Arrow arc) self.old self.new) }
        ensures refused { IfErr result (RefusesOwn number (Line.Arrow arc) self.old) }
        ensures sound { OnOk result (IsSound self.new) }
        ensures kept { OnErr result (self.new.links.items ≡ self.old.links.items) }
    {
        let Some(sizes) = self.sizes else {
            return Err(TextRefusal::BadLine(number));
        };
        let Some(arc) = arc else {
            return Err(TextRefusal::BadArc(number));
        };
        if !self.may_have(sizes, arc) {
            return Err(TextRefusal::BadArc(number));
        }
        let Some(cost) = arc.cost else {
            return Err(TextRefusal::CostRange(number));
        };
        self.put(Link {
            source: arc.source,
            target: arc.target,
            cost,
            line: number,
        })?;
        Ok(())
    }

    // Whether the arc goes from a source to another node.
    fn may_have(&self, sizes: Sizes, arc: Arc) -> bool
        requires { IsSound self.now }
        ensures { result ≡ goes_right self.now.sources.items sizes arc }
    {
        self.source_set.has(arc.source)
            && is_node(sizes, arc.target)
            && !self.source_set.has(arc.target)
    }

    // Keeps an arc.
    fn put(&mut self, link: Link) -> Result<(), TextRefusal>
        ensures put { OnOk result (PutsArc link self.old self.new) }
        ensures refused { IfErr result (λ refusal. refusal ≡ TextRefusal.NoMemory) }
        ensures kept { OnErr result (self.new.links.items ≡ self.old.links.items) }
    {
        self.target_set.insert(link.target)?;
        self.links.push(link)?;
        Ok(())
    }
}

// Whether the id is that of a node.
fn is_node(sizes: Sizes, id: u32) -> bool
    ensures { result ≡ is_node sizes id }
{
    0 < id && id <= sizes.nodes
}

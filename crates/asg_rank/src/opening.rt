//! The memory of a search, and its root.

ghost use Rattle.std.specs.Prelude.{◌≡◌, ℕ, ◌+◌, ◌-◌, ◌*◌, ◌≤◌, [], IfOk, All, length, vec_len};
ghost use Rattle.asg_model.specs.declared.parts.Place.TheVariants.{All as PlaceAll};
ghost use Rattle.asg_model.specs.Counts.{placed};
ghost use Rattle.asg_model.specs.Limits.{most_cost, most_side};
ghost use Rattle.asg_model.specs.Problem.{Problem};
ghost use Rattle.asg_model.specs.Refused.{PassesNegative};
ghost use Rattle.asg_model.specs.Shapes.{square_side};
ghost use Rattle.asg_model.specs.declared.parts.Cost.{Cost};
ghost use Rattle.asg_rank.specs.Opening.{IsBlank, IsMemory, IsPlantable, root_in};
ghost use Rattle.asg_rank.specs.Rankings.{ranking_work};
ghost use Rattle.asg_rank.specs.Rooms.{answer_room, most_work};
ghost use Rattle.asg_nodes.specs.Rules.{rules_of};
ghost use Rattle.asg_branching.specs.Searches.{HasMemory, IsReady, given_of};
ghost use Rattle.asg_roots.specs.Roots.{IsInstanceRoot};

use crate::NoMemory;
use crate::desks::{DeskMemory, desk_memory, desk_with};
use crate::pairs::both;
use crate::rooms::answer_room;
use crate::trees::tree_memory;
use asg_algebra::Solved;
use asg_branching::{Search, close_child};
use asg_match::Matching;
use asg_model::{Choice, Instance};
use asg_nodes::{Entry, HallPool, Slots, State, Tree, offer, push_child};
use asg_order::{DMonoid, Kind, Ordered};
use asg_roots::{Root, RootGuess, instance_root};
use asg_square::Square;
use asg_square::laws::square_law;
use asg_values::laws::infeasible_law;
use std::alloc::Global;

/// The memory of a search: the nodes of its tree and their Hall sets, the choices of answers and
/// slots, and what children are grown on, but for what the root leaves.
#[derive(Drop)]
struct Memory<V: Copy> {
    tree: (Vec<Entry<V>>, HallPool),
    answers: (Vec<Choice>, Slots<V>),
    desk: DeskMemory<V>,
}

// So many choices over so many rows.
fn choices_for(alloc: Global, room: u32, rows: u32) -> Result<Vec<Choice>, NoMemory>
    ensures count { IfOk result (λ choices. vec_len choices ≡ room) }
    ensures over { IfOk result (λ choices. All (λ f. length f ≡ rows) choices.items) }
{
    let mut choices = Vec::with_capacity(alloc, room as usize)?;
    'choices: for _ in 0..room {
        choices.push(Choice::make(alloc, rows)?)?;
    }
    Ok(choices)
}

// The memory for so many answers: their choices, and slots that are free.
fn answer_memory<V: Copy>(
    alloc: Global,
    inst: &Instance,
    room: u32,
    unit: V,
) -> Result<(Vec<Choice>, Slots<V>), NoMemory>
    ensures count { IfOk result (λ memory. vec_len memory.0 ≡ room) }
    ensures over { IfOk result (λ memory.
        All (λ f. length f ≡ length inst.now.rows) memory.0.items) }
    ensures slots { IfOk result (λ memory. memory.1
        ≡ record { side = square_side inst.now; room = room; used = [] }) }
{
    let choices = choices_for(alloc, room, inst.rows().len() as u32)?;
    let slots = Slots::make(alloc, inst.side(), room, unit)?;
    Ok((choices, slots))
}

// The memory of a search for so many answers, over a copy of a square.
fn search_memory<V: Copy>(
    alloc: Global,
    inst: &Instance,
    square: &Square<V>,
    room: u32,
    unit: V,
) -> Result<Memory<V>, NoMemory>
    requires small { square.now.side ≤ most_side }
    requires work { ranking_work inst.now room ≤ most_work }
    ensures { IfOk result (IsMemory inst.now room square.now) }
{
    let tree = tree_memory(alloc, inst, room)?;
    let answers = answer_memory(alloc, inst, room, unit)?;
    let desk = desk_memory(alloc, square, unit)?;
    Ok(Memory {
        tree,
        answers,
        desk,
    })
}

// A search without a node yet, over the square of a root that was solved, with the bench that
// solved it, the region of its phases, and the memory for answers; and what solving it came to.
fn blank_search<V: Copy>(root: Root<V>, memory: Memory<V>) -> (Search<V>, Solved, Matching)
    requires { root.bench.side ≡ root.reduced.now.side }
    ensures blank { (X : Problem) (room : ℕ) → IsMemory X room root.reduced.now memory
        → IsBlank X room result.0 }
    ensures memory { (X : Problem) (room : ℕ) → IsMemory X room root.reduced.now memory
        → root.reduced.now.side ≡ square_side X → root.region.side ≡ square_side X
        → HasMemory X result.0 }
    ensures base { result.0.base ≡ root.reduced }
    ensures region { result.0.tree.region ≡ root.region }
    ensures bench { result.0.desk.bench ≡ root.bench }
    ensures ended { result.1 ≡ root.ended }
    ensures matching { result.2 ≡ root.matching }
{
    let Root {
        reduced: base,
        ended,
        matching,
        bench,
        region,
    } = root;
    let Memory {
        tree: (entries, halls),
        answers: (choices, slots),
        desk,
    } = memory;
    let tree = Tree {
        entries,
        region,
        halls,
    };
    let search = Search {
        given: 0,
        choices,
        slots,
        tree,
        base,
        desk: desk_with(desk, bench),
    };
    (search, ended, matching)
}

// Makes the root: with its best choice, which is kept, or empty, with its Hall set.
fn plant<M: DMonoid>(
    m: &M,
    inst: &Instance,
    search: &mut Search<M::Value>,
    ended: Solved,
    matching: &Matching,
)
    requires planted { (enter : Cost → M.Value) × (room : ℕ)
        × IsPlantable (rules_of (M.monoid_of m.now) (M.difference m.now) enter) inst.now room
        search.old ended matching.now }
    ensures ready { (enter : Cost → M.Value) (room : ℕ)
        → let R = rules_of (M.monoid_of m.now) (M.difference m.now) enter in
        IsPlantable R inst.now room search.old ended matching.now
        → IsReady R inst.now room search.new }
    ensures given { search.new.given ≡ search.old.given }
{
    infeasible_law();
    match ended {
        Solved::Perfect(last) => {
            let index = search.base.index;
            push_child(&mut search.tree, 0, 0, State::Open, last, index);
            offer(m, &mut search.slots, 1, index, matching);
        }
        Solved::Short(_) => {
            let (tree, desk) = (&mut search.tree, &mut search.desk);
            close_child(inst, tree, desk, 0, 0, None, m.unit());
        }
    }
}

// The solved square of an instance, and the memory of a search over it for so many answers. The
// error is want of memory.
fn root_and_memory<K: Kind>(
    alloc: Global,
    kind: &K,
    inst: &Instance,
    room: u32,
    records: u32,
) -> Result<
    (
        Root<<K::M as Ordered>::Value>,
        Memory<<K::M as Ordered>::Value>,
    ),
    NoMemory,
>
where
    K::M: RootGuess,
    requires side { square_side inst.now ≤ most_side }
    requires passes { PassesNegative (K.objective kind.now) inst.now }
    requires reach { most_cost ≤ K.reach kind.now }
    requires records { square_side inst.now ≤ records }
    requires work { ranking_work inst.now room ≤ most_work }
    ensures root { let m = K.monoid kind.now in
        IfOk result (λ made. IsInstanceRoot (K.M.monoid_of m) (K.M.difference m)
        (K.entered kind.now) inst.now records made.0) }
    ensures memory { IfOk result (λ made. IsMemory inst.now room made.0.reduced.now made.1) }
{
    let root = instance_root(alloc, kind, inst, records)?;
    let memory = search_memory(alloc, inst, &root.reduced.now, room, kind.monoid().unit());
    both(root, memory)
}

// A search without a node yet, over the solved square of an instance, with the memory for so many
// answers; and what solving it came to. The error is want of memory.
fn begun_search<K: Kind>(
    alloc: Global,
    kind: &K,
    inst: &Instance,
    room: u32,
    records: u32,
) -> Result<(Search<<K::M as Ordered>::Value>, Solved, Matching), NoMemory>
where
    K::M: RootGuess,
    requires side { square_side inst.now ≤ most_side }
    requires passes { PassesNegative (K.objective kind.now) inst.now }
    requires reach { most_cost ≤ K.reach kind.now }
    requires records { square_side inst.now ≤ records }
    requires work { ranking_work inst.now room ≤ most_work }
    ensures root { let m = K.monoid kind.now in
        IfOk result (λ begun. IsInstanceRoot (K.M.monoid_of m) (K.M.difference m)
        (K.entered kind.now) inst.now records (root_in begun.0 begun.1 begun.2)) }
    ensures blank { IfOk result (λ begun. IsBlank inst.now room begun.0) }
    ensures memory { IfOk result (λ begun. HasMemory inst.now begun.0) }
{
    let made = root_and_memory(alloc, kind, inst, room, records)?;
    Ok(blank_search(made.0, made.1))
}

// How many records of phases a search for so many answers needs: those of the root, and one for
// each child of all answers but the last.
fn record_count(inst: &Instance, room: u32) -> u32
    requires some { 1 ≤ room }
    requires side { square_side inst.now ≤ most_side }
    requires work { ranking_work inst.now room ≤ most_work }
    ensures { result ≡ square_side inst.now + (room - 1) * placed inst.now }
{
    let _rows = inst.rows();
    inst.side() + (room - 1) * inst.placed()
}

/// A search with its root alone, and the memory for so many answers. The error is want of memory.
pub(crate) fn open_search<K: Kind>(
    alloc: Global,
    kind: &K,
    inst: &Instance,
    count: u32,
) -> Result<Search<<K::M as Ordered>::Value>, NoMemory>
where
    K::M: RootGuess,
    requires place { inst.now.place ≡ PlaceAll }
    requires side { square_side inst.now ≤ most_side }
    requires passes { PassesNegative (K.objective kind.now) inst.now }
    requires reach { most_cost ≤ K.reach kind.now }
    requires some { 1 ≤ count }
    requires work { ranking_work inst.now count ≤ most_work }
    ensures ready { let m = K.monoid kind.now in
        let R = rules_of (K.M.monoid_of m) (K.M.difference m) (K.entered kind.now) in
        IfOk result (IsReady R inst.now (answer_room inst.now count)) }
    ensures none { IfOk result (λ s. given_of s ≡ []) }
{
    square_law::<<K::M as Ordered>::Value>();
    let _rows = inst.rows();
    let m = kind.monoid();
    let room = answer_room(inst, count);
    let records = record_count(inst, room);
    let begun = begun_search(alloc, kind, inst, room, records)?;
    let mut search = begun.0;
    plant(m, inst, &mut search, begun.1, &begun.2);
    Ok(search)
}

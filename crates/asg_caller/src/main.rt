//! Three crews and three duties: who takes which, so that the longest overtime is as short as
//! possible. It shows how the solvers are called as a library, and how a caller proves by their
//! clauses that its own answer is best.
#![tactic(auto)]

mod overtime;
mod rosters;

use overtime::{Hours, three_by_three};
use rosters::best_roster;
use std::io;

// The hours of overtime, crew by crew.
const HOURS: Hours = [4, 1, 3, 2, 0, 5, 3, 2, 2];

fn main(rt: HostRuntime) -> io::Result<()> {
    let inst = three_by_three(rt.alloc(), &HOURS)?;
    match best_roster(rt.alloc(), &inst)? {
        Some(roster) => {
            for crew in 0..roster.choice.len() {
                if let Some(duty) = roster.choice.get(crew) {
                    println!(rt; "crew {} takes duty {}", crew + 1, u64::from(duty) + 1)?;
                }
            }
            println!(rt; "the longest overtime is {} hours", roster.overtime)
        }
        None => println!(rt; "no roster is valid"),
    }
}

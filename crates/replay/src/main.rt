// Three days, told call by call: what each call was offered, and what it answered.
#![tactic(auto)]

mod customers;
mod early;
mod gateway;
mod job;
mod office;
mod old_seal;
mod story;
mod told;
mod tool;

use rules::SEGMENT;
use std::io;

fn main(rt: HostRuntime) -> io::Result<()> {
    accident_at_tool_4(&rt)?;
    two_customers(&rt)?;
    served_early(&rt)
}

fn accident_at_tool_4(rt: &impl Print) -> io::Result<()> {
    story::show_job(rt)?;
    let old = office::seal(rt, job::OLD)?;
    let new = office::seal(rt, job::NEW)?;
    story::first_fetch(rt, &old)?;
    let honest = story::second_fetch(rt, &old, &new)?;
    story::look_at_pieces(rt)?;
    let mixed = story::mixed(rt, &old, &new)?;
    story::conclude(rt, honest, mixed)
}

fn two_customers(rt: &impl Print) -> io::Result<()> {
    customers::show_jobs(rt)?;
    let then = customers::as_it_was(rt)?;
    let seven = office::seal(rt, customers::SEVEN)?;
    let eight = office::seal(rt, customers::EIGHT)?;
    let truly = customers::told_truly(rt, &seven)?;
    let falsely = customers::told_falsely(rt, &seven)?;
    let honest = customers::honest(rt, &eight)?;
    customers::conclude(rt, then, truly || falsely, honest)
}

fn served_early(rt: &impl Print) -> io::Result<()> {
    let mut body = [0; SEGMENT];
    let mut first = [0; early::SEALED];
    early::show_job(rt)?;
    early::serve(rt, &early::seal_all(rt, &mut body, &mut first)?)
}

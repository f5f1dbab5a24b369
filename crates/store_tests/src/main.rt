// Runs a script of edits of the user's model, a step a line, and prints what each gives.
//
//     EDIT                  makes the edit for good
//     back EDIT; EDIT ..    makes edits, each after the one before, and takes them back, the last
//                           first
//     within EDIT; EDIT     makes two edits, and settles them, the last first
//     within EDIT; back ..  makes an edit, makes others and takes them back, and settles the first
//     numbers EDIT          makes the edit with the set of the numbers that are at least 0
//     zeros0 EDIT           the same with that of no zeros, and zeros3 with that of three
//     minimize EDIT         makes the function of a row the objective
//     check EDIT            prints a copy of an edit, and whether it would be made
//     where NAME            prints the address of a variable
//     show, copies          prints the model, or copies of all that stands in it
//     new                   begins with an empty model
//     many ..               makes many edits, up to the limits (src/many.rt)
//     # ..                  remarks
//
// An edit is a line as planners write it.
#![tactic(auto)]

mod edits;
mod many;
mod session;
mod shown;

use model_store::UserModel;
use std::io;
use test_support::Stop;

fn main(rt: HostRuntime) -> io::Result<()> {
    let mut model = UserModel::new(rt.alloc());
    let ended = run(&rt, &mut model);
    tell(&rt, ended)
}

// The model is not at hand here, where there are two ways out.
fn tell(rt: &HostRuntime, ended: Result<(), Stop>) -> io::Result<()> {
    match ended {
        Ok(()) => Ok(()),
        Err(Stop) => println!(rt; "stopped"),
    }
}

fn run(rt: &HostRuntime, model: &mut UserModel) -> Result<(), Stop> {
    for line in rt.lines(rt.alloc()) {
        let line = line?;
        session::step(rt, model, line.as_str())?;
    }
    Ok(())
}

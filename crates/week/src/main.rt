// The week of a book, read off one session: every call that is made, with its answer.
#![tactic(auto)]

mod asked;
mod brought;
mod calls;
mod elsewhere;
mod entered;
mod shown;
mod stop;
mod week;

use crate::asked::texts;
use crate::entered::entered;
use crate::shown::Shown;
use crate::stop::Stop;
use crate::week::week;
use session::work;

fn main(rt: HostRuntime) -> Result<(), Stop> {
    let heap = rt.alloc();
    let first = entered();
    let then = week(heap)?;
    let texts = texts(heap, &first, then.as_slice())?;
    let answers = work(heap, &first, then)?;
    for (text, answer) in texts.iter().zip(answers.iter()) {
        let answer = Shown(answer);
        println!(rt; "{text}: {answer}")?;
    }
    Ok(())
}

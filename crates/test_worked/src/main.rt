//! Worked examples: calls on values and processes, calls of an index, and scripts. So a test whose course is a fixed list of calls is data, and needs
//! no proof of its own.
//!
//! The lines of its input up to one of the word `index` are those of `test_worked_values`. It makes the calls of an index that the others name, one
//! after another, and prints each line with what it got, behind ` = `: `stdout` says what each call must get. Then it prints how many of the first
//! lines were answered as they should be, and replays the scripts of the folder that it is run in, its `data/` (`scripts.rt`).
//!
//! A line behind `index` is a call, or several with `; ` between them, which are answered in the same way. `times ROUNDS` in front of a line makes
//! its calls so many times: it prints what they got in the first round, or in the first other round that got something else. Empty
//! lines and lines that begin with `#` are printed as they are. Passes are numbered from 1.
//!
//! | Call | What it gets |
//! |---|---|
//! | `open PAGES PASSES` | a new index with so many passes, in place of the one before: `done`, or what is out of range |
//! | `PASS insert KEY VALUE`, `PASS put KEY VALUE`, `PASS delete KEY` | the reply, and the hint beside it |
//! | `PASS insertpost KEY VALUE`, `PASS putpost KEY VALUE` | the reply, what became of the last post, and the hint |
//! | `PASS change KEY OLD NEW` | the reply |
//! | `PASS find KEY TURNS`, `PASS part FROM TURNS` | the reply, or `out of turns` |
//! | `PASS near FROM PAGE TURNS` | the reply of a part that has that page in mind, or `out of turns`; and the page that it leaves for the next one |
//! | `PASS scan FROM END TURNS`, `PASS scan-all FROM TURNS` | `done`, or where it ran out of turns; and all rows that scans have listed in this index |
//! | `PASS post LEVEL KEY`, `PASS compress LEVEL KEY` | the answer, and the hint beside it. A post is by a hint to post, and a compression by one of a thin page; `post-thin` and `compress-post` are by the other kind |
//! | `PASS lower` | the answer |
//! | `PASS sweep` | how much was released |
//! | `PASS lacks` | whether frames are scarce |
//! | `patience` | that of the index |
//! | `close` | `closed`: the index with all its passes leaves its image |
//! | `close-early` | the same without the last pass, which must be refused: the index then goes on |
//! | `image`, `page NUMBER` | how many bytes the image has, and what the checker says of them; the words of a page in it |
//! | `rows` | how many rows the checker finds in the image |
//! | `reopen PASSES` | an index that begins with the image, and with so many passes |
//! | `fill`, `fill-and-scan`, `shrink`, `clear` | a race of the first four passes on keys below 80,000, each in a thread of its own: what they were answered in all, and how many keys the fifth pass finds at the end. They insert each key that is not there (while the fifth pass scans); delete all but each tenth of their keys; delete each key and search for it |
#![tactic(auto)]

mod answers;
mod bench;
mod calls;
mod races;
mod scripts;
mod stage;

ghost use Rattle.test_worked.specs.Owning.{IsFit};

use bench::Bench;
use std::process::ExitCode;
use std::sync::Wait;
use std::thread::Threads;
use test_worked_values::Judge;

fn main(rt: HostRuntime) -> anyhow::Result<ExitCode> {
    answer_all(&rt, &rt, &mut Bench::new())?;
    let all_right = scripts::are_right(&rt)?;
    Ok(ExitCode::from(if all_right { 0 } else { 1 }))
}

/// Answers each line of the input. The calls of an index wait by the second handle.
fn answer_all<W: Threads + Wait + Sync>(
    rt: &HostRuntime,
    waits: &W,
    bench: &mut Bench,
) -> anyhow::Result<()>
    requires { IsFit bench.old }
{
    let mut judge = Judge::new(rt.alloc());
    let mut on_index = false;
    for line in rt.lines(rt.alloc()) {
        let line = line?;
        if on_index {
            answer(rt, waits, bench, line.as_str())?;
        } else if line.as_str() == "index" {
            on_index = true;
        } else {
            judge.judge(rt, rt.alloc(), line.as_str())?;
        }
    }
    judge.sum_up(rt)
}

/// Prints a line with what it gets, or alone.
fn answer<W: Threads + Wait + Sync>(
    rt: &HostRuntime,
    waits: &W,
    bench: &mut Bench,
    line: &str,
) -> anyhow::Result<()>
    requires { IsFit bench.old }
    ensures { IsFit bench.new }
{
    if line.is_empty() || line.starts_with('#') {
        println!(rt; "{line}")?;
        return Ok(());
    }
    let text = bench.answer(waits, rt.alloc(), line)?;
    show(rt, line, text.as_slice())
}

/// Prints a line and what it got.
fn show(rt: &HostRuntime, line: &str, text: &[u8]) -> anyhow::Result<()> {
    let text = String::from_utf8_lossy(rt.alloc(), text)?;
    println!(rt; "{line} = {text}")?;
    Ok(())
}

//! Lines that are answered, one after another.

use crate::answers::{checked, unclosed, unopened};
use crate::calls::{Call, PassCall, call_of};
use crate::races::Race;
use crate::stage::Stage;
use bl_check::{Quiet, check};
use bl_index::Config;
use bl_model::Watched;
use byteorder::{ByteOrder, LittleEndian};
use std::alloc::{AllocError, Global};
use std::sync::Wait;
use std::thread::Threads;
use test_worked_values::{count, said, shown_words};

/// The index that there is, and the image that one left.
#[derive(Drop)]
pub struct Bench {
    stage: Option<Stage>,
    image: Option<Quiet>,
}

/// The bytes of an image.
fn bytes_of(alloc: Global, quiet: &Quiet) -> Result<Vec<u8>, AllocError> {
    let mut writer = Watched::new(Vec::new(alloc));
    match quiet.image().write(&mut writer) {
        Ok(()) => Ok(writer.into_inner()),
        Err(_) => Err(AllocError),
    }
}

/// How often the calls of a line are made, and the calls.
fn rounds_of(line: &str) -> (u64, &str) {
    let Some(rest) = line.strip_prefix("times ") else {
        return (1, line);
    };
    let (rounds, calls) = rest.split_once(' ').unwrap_or((rest, ""));
    (rounds.parse().unwrap_or(0), calls)
}

/// What the words of a call ask for.
fn read_call(alloc: Global, call: &str) -> Result<Option<Call>, AllocError> {
    let words: Vec<&str> = call.split(' ').collect(alloc)?;
    Ok(call_of(words.as_slice()))
}

/// Appends an answer behind those before it.
fn push_next(text: &mut Vec<u8>, answer: &[u8]) -> Result<(), AllocError> {
    if !text.is_empty() {
        text.extend_from_slice(b"; ")?;
    }
    text.extend_from_slice(answer)
}

/// The words of a page in the bytes of an image.
fn words_at(bytes: &[u8], number: usize) -> Option<[u64; 32]> {
    let mut pages = bytes.get(32..).unwrap_or(&[]).chunks_exact(256);
    let page = pages.nth(number)?;
    let mut words = [0; 32];
    LittleEndian::read_u64_into(page, &mut words);
    Some(words)
}

impl Bench {
    ghost use Rattle.test_worked.specs.Owning.{IsFit, IsOwner};

    /// There is no index yet, and no image.
    pub fn new() -> Bench
        ensures { IsFit result }
    {
        Bench {
            stage: None,
            image: None,
        }
    }

    /// What a line gets.
    pub fn answer<R: Threads + Wait + Sync>(
        &mut self,
        rt: &R,
        alloc: Global,
        line: &str,
    ) -> Result<Vec<u8>, AllocError>
        requires { IsFit self.old }
        ensures { IsFit self.new }
    {
        let (rounds, calls) = rounds_of(line);
        let first = self.answer_all(rt, alloc, calls)?;
        for _round in 1..rounds {
            let other = self.answer_all(rt, alloc, calls)?;
            if other.as_slice() != first.as_slice() {
                return Ok(other);
            }
        }
        Ok(first)
    }

    /// What the calls get, one after another.
    fn answer_all<R: Threads + Wait + Sync>(
        &mut self,
        rt: &R,
        alloc: Global,
        calls: &str,
    ) -> Result<Vec<u8>, AllocError>
        requires { IsFit self.old }
        ensures { IsFit self.new }
    {
        let mut text = Vec::new(alloc);
        for call in calls.split("; ") {
            let answer = self.answer_one(rt, alloc, call)?;
            push_next(&mut text, answer.as_slice())?;
        }
        Ok(text)
    }

    /// What one call gets.
    fn answer_one<R: Threads + Wait + Sync>(
        &mut self,
        rt: &R,
        alloc: Global,
        call: &str,
    ) -> Result<Vec<u8>, AllocError>
        requires { IsFit self.old }
        ensures { IsFit self.new }
    {
        match read_call(alloc, call)? {
            Some(Call::Pass(number, call)) => self.call(rt, alloc, number, call),
            Some(Call::Race(what)) => self.race(rt, alloc, what),
            Some(call) => self.settle(alloc, call),
            None => said(alloc, "no such call"),
        }
    }

    /// What a call of a pass gets.
    fn call<R: Threads + Wait + Sync>(
        &mut self,
        rt: &R,
        alloc: Global,
        number: usize,
        call: PassCall,
    ) -> Result<Vec<u8>, AllocError>
        requires { IsFit self.old }
        ensures { IsFit self.new }
    {
        match &mut self.stage {
            Some(stage) => stage.answer(rt, alloc, number, call),
            None => said(alloc, "no index"),
        }
    }

    /// What the passes get in a race.
    fn race<R: Threads + Wait + Sync>(
        &mut self,
        rt: &R,
        alloc: Global,
        what: Race,
    ) -> Result<Vec<u8>, AllocError>
        requires { IsFit self.old }
        ensures { IsFit self.new }
    {
        match &mut self.stage {
            Some(stage) => stage.race(rt, alloc, what),
            None => said(alloc, "no index"),
        }
    }

    /// What a call gets that is of no single pass.
    fn settle(&mut self, alloc: Global, call: Call) -> Result<Vec<u8>, AllocError>
        requires { IsFit self.old }
        ensures { IsFit self.new }
    {
        match call {
            Call::Open(config) => self.open(alloc, config),
            Call::Patience => match &self.stage {
                Some(stage) => count(alloc, u64::from(stage.patience())),
                None => said(alloc, "no index"),
            },
            Call::Close => self.close(alloc, false),
            Call::CloseEarly => self.close(alloc, true),
            Call::Image => self.check(alloc),
            Call::Rows => self.rows(alloc),
            Call::Page(number) => self.page(alloc, number),
            Call::Reopen(passes) => self.reopen(alloc, passes),
            Call::Pass(_, _) | Call::Race(_) => said(alloc, "no such call"),
        }
    }

    /// Opens an index in place of the one that there was.
    fn open(&mut self, alloc: Global, config: Config) -> Result<Vec<u8>, AllocError>
        requires { IsFit self.old }
        ensures { IsFit self.new }
    {
        self.stage = None;
        match Stage::open(alloc, config) {
            Ok(stage) => self.begin(alloc, stage),
            Err(fault) => unopened(alloc, fault),
        }
    }

    /// Goes on with a new index.
    fn begin(&mut self, alloc: Global, stage: Stage) -> Result<Vec<u8>, AllocError>
        requires { IsOwner stage }
        ensures { IsFit self.new }
    {
        self.stage = Some(stage);
        said(alloc, "done")
    }

    /// Closes the index, with all passes or without the last one, and keeps its image.
    fn close(&mut self, alloc: Global, is_early: bool) -> Result<Vec<u8>, AllocError>
        requires { IsFit self.old }
        ensures { IsFit self.new }
    {
        let Some(stage) = self.stage.take() else {
            return said(alloc, "no index");
        };
        let closed = if is_early {
            stage.close_early(alloc)
        } else {
            stage.close(alloc)
        };
        match closed {
            Ok(quiet) => {
                self.image = Some(quiet);
                said(alloc, "closed")
            }
            Err((stage, fault)) => {
                self.stage = Some(stage);
                unclosed(alloc, fault)
            }
        }
    }

    /// Opens an index that begins with the image.
    fn reopen(&mut self, alloc: Global, passes: u32) -> Result<Vec<u8>, AllocError>
        requires { IsFit self.old }
        ensures { IsFit self.new }
    {
        let Some(quiet) = self.image.take() else {
            return said(alloc, "no image");
        };
        match Stage::reopen(alloc, quiet, passes) {
            Ok(stage) => self.begin(alloc, stage),
            Err((quiet, fault)) => {
                self.image = Some(quiet);
                unopened(alloc, fault)
            }
        }
    }

    /// How many bytes the image has, and what the checker says of them.
    fn check(&self, alloc: Global) -> Result<Vec<u8>, AllocError> {
        let Some(quiet) = &self.image else {
            return said(alloc, "no image");
        };
        let bytes = bytes_of(alloc, quiet)?;
        checked(alloc, bytes.len(), check(alloc, bytes.as_slice()))
    }

    /// How many rows the checker finds in the bytes of the image.
    fn rows(&self, alloc: Global) -> Result<Vec<u8>, AllocError> {
        let Some(quiet) = &self.image else {
            return said(alloc, "no image");
        };
        match check(alloc, bytes_of(alloc, quiet)?.as_slice()) {
            Ok(report) => count(alloc, u64::from(report.rows)),
            Err(_) => said(alloc, "not sound"),
        }
    }

    /// The words of a page in the bytes of the image.
    fn page(&self, alloc: Global, number: usize) -> Result<Vec<u8>, AllocError> {
        let Some(quiet) = &self.image else {
            return said(alloc, "no image");
        };
        let bytes = bytes_of(alloc, quiet)?;
        match words_at(bytes.as_slice(), number) {
            Some(words) => shown_words(alloc, &words),
            None => said(alloc, "no such page"),
        }
    }
}

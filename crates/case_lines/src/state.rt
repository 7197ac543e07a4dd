//! What the lines of a case have said so far, and the stage that they make.

use crate::fault::Fault;
use crate::names::Names;
use crate::show::Lines;
use change_issue::Issuer;
use kept_replies::Kept;
use mc_base::List;
use mc_requests::Limits;
use mc_stage::{Failing, Stage};
use scrip_form::Terms;
use std::alloc::Global;
use std::mem;

/// What the next stage has.
#[derive(Drop)]
pub struct Setting {
    pub book: Vec<u8>,
    pub links: Vec<Vec<Vec<u8>>>,
    /// The numbers of the links that come through the operator's door.
    pub doors: Vec<u32>,
    pub readings: Vec<u64>,
    pub failing_disk: Vec<u32>,
    pub failing_link: Vec<u32>,
    /// The links to the vendor, of a wallet that pays for a browser.
    pub upstream: Vec<Vec<Vec<u8>>>,
    pub failing_up: Vec<u32>,
    pub beside: Vec<Beside>,
}

/// A book beside, of another house.
#[derive(Drop)]
pub struct Beside {
    pub contents: Vec<u8>,
    /// The calls of its disk that fail.
    pub failing: Vec<u32>,
}

impl Beside {
    /// A stage that has this book.
    pub fn make_stage(&self, alloc: Global) -> Result<Stage, Fault> {
        let contents = Vec::from_slice(alloc, &self.contents)?;
        stage_of(alloc, contents, Vec::from_slice(alloc, &self.failing)?)
    }
}

/// A stage that has a book of these bytes, and fails at these calls of its disk.
pub fn stage_of(alloc: Global, contents: Vec<u8>, failing: Vec<u32>) -> Result<Stage, Fault> {
    let failing = Failing {
        disk: List::of(failing),
        link: List::of(Vec::new(alloc)),
    };
    Ok(Stage::new(alloc, contents, Vec::new(alloc), Vec::new(alloc), failing)?)
}

impl Setting {
    fn new(alloc: Global) -> Setting {
        Setting {
            book: Vec::new(alloc),
            links: Vec::new(alloc),
            doors: Vec::new(alloc),
            readings: Vec::new(alloc),
            failing_disk: Vec::new(alloc),
            failing_link: Vec::new(alloc),
            upstream: Vec::new(alloc),
            failing_up: Vec::new(alloc),
            beside: Vec::new(alloc),
        }
    }
}

/// What the lines of a case have said so far.
#[derive(Drop)]
pub struct State {
    pub alloc: Global,
    pub names: Names,
    pub setting: Setting,
    pub limits: Limits,
    /// The last stage.
    pub stage: Option<Stage>,
    /// The last links to a vendor.
    pub up: Option<Stage>,
    /// Whether calls by hand go on with it.
    pub is_called: bool,
    pub terms: Option<Terms>,
    pub issuer: Option<Issuer>,
    pub kept: Option<Kept>,
}

impl State {
    pub fn new(alloc: Global) -> State {
        State {
            alloc,
            names: Names::new(alloc),
            setting: Setting::new(alloc),
            limits: Limits::FULL,
            stage: None,
            up: None,
            is_called: false,
            terms: None,
            issuer: None,
            kept: None,
        }
    }

    /// Forgets all but the names, as each case begins.
    pub fn forget(&mut self) {
        self.setting = Setting::new(self.alloc);
        self.limits = Limits::FULL;
        self.stage = None;
        self.up = None;
        self.is_called = false;
        self.terms = None;
        self.issuer = None;
        self.kept = None;
    }

    /// The stage that the lines say. Its links and failing calls are for it alone.
    pub fn make_stage(&mut self) -> Result<Stage, Fault> {
        let alloc = self.alloc;
        let contents = Vec::from_slice(alloc, &self.setting.book)?;
        let readings = Vec::from_slice(alloc, &self.setting.readings)?;
        let links = mem::replace(&mut self.setting.links, Vec::new(alloc));
        let doors = mem::replace(&mut self.setting.doors, Vec::new(alloc));
        let failing = Failing {
            disk: List::of(mem::replace(&mut self.setting.failing_disk, Vec::new(alloc))),
            link: List::of(mem::replace(&mut self.setting.failing_link, Vec::new(alloc))),
        };
        let stage = Stage::new(alloc, contents, links, readings, failing)?;
        Ok(stage.through_door(doors))
    }

    /// A stage that has the links to the vendor alone, which are for it alone, as are the calls of theirs that fail.
    pub fn make_upstream(&mut self) -> Result<Stage, Fault> {
        let alloc = self.alloc;
        let links = mem::replace(&mut self.setting.upstream, Vec::new(alloc));
        let failing = Failing {
            disk: List::of(Vec::new(alloc)),
            link: List::of(mem::replace(&mut self.setting.failing_up, Vec::new(alloc))),
        };
        Ok(Stage::new(alloc, Vec::new(alloc), links, Vec::new(alloc), failing)?)
    }

    /// The bytes of the first link.
    pub fn whole_link(&self) -> Result<Vec<u8>, Fault> {
        let mut whole = Vec::new(self.alloc);
        if let Some(link) = self.setting.links.first() {
            for piece in link {
                whole.extend_from_slice(piece)?;
            }
        }
        Ok(whole)
    }

    /// Prints the lines of a stage, whose disk is the next book.
    pub fn show_stage(&mut self, stage: Stage, out: &mut Lines) -> Result<(), Fault> {
        show_lines(&stage, &self.setting.book, out);
        let contents = Vec::from_slice(self.alloc, stage.contents());
        self.stage = Some(stage);
        self.is_called = false;
        self.setting.beside = Vec::new(self.alloc);
        self.setting.upstream = Vec::new(self.alloc);
        self.setting.failing_up = Vec::new(self.alloc);
        self.setting.book = contents?;
        Ok(())
    }

    /// Prints the lines of the links to a vendor.
    pub fn show_upstream(&mut self, up: Stage, out: &mut Lines) {
        show_sent("up", &up, out);
        let (_, calls) = up.calls();
        out.counted("up calls", calls);
        self.up = Some(up);
    }
}

/// Prints what a stage tells, whose disk had these bytes before.
fn show_lines(stage: &Stage, before: &[u8], out: &mut Lines) {
    if !stage.said().is_empty() {
        out.given("said", stage.said());
    }
    show_sent("sent", stage, out);
    show_book("book", before, stage.contents(), out);
    show_calls(stage, out)
}

/// Prints what was sent on each link that was taken.
fn show_sent(verb: &str, stage: &Stage, out: &mut Lines) {
    for link in 0..usize::MAX {
        match stage.sent(link) {
            Some(sent) => out.given(verb, sent),
            None => break,
        }
    }
}

/// Prints how many calls of a stage were made.
fn show_calls(stage: &Stage, out: &mut Lines) {
    let (disk, link) = stage.calls();
    out.start("calls");
    out.number(disk);
    out.number(link);
    out.end()
}

/// Prints the lines of books beside, by the stages that have them now.
pub fn show_beside(beside: &[Beside], stages: &[Stage], out: &mut Lines) {
    for (book, stage) in beside.iter().zip(stages.iter()) {
        show_book("beside", &book.contents, stage.contents(), out);
        show_calls(stage, out);
    }
}

/// Prints the bytes of a disk: how many of the bytes before stand in front, and what follows.
pub fn show_book(verb: &str, before: &[u8], after: &[u8], out: &mut Lines) {
    if before == after {
        return out.said(verb, "same");
    }
    let kept = common(before, after);
    let (_, rest) = after.split_at(kept.min(after.len()));
    out.start(verb);
    out.number(kept as u64);
    out.bytes(rest);
    out.end()
}

/// How many bytes both have in front.
fn common(a: &[u8], b: &[u8]) -> usize {
    let mut count = 0_usize;
    for (x, y) in a.iter().zip(b.iter()) {
        if x != y {
            break;
        }
        count = count.saturating_add(1);
    }
    count
}

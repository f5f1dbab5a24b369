//! The page on which a program of tests prints.
use std::alloc::Global;
use std::fmt::Display;
use std::process::ExitCode;

/// Prints lines, and keeps whether each was written. So what prints through it needs no ways out,
/// each of which would be proved with all values at hand.
#[derive(Drop)]
pub struct Page<'a> {
    rt: &'a HostRuntime,
    is_written: bool,
}

impl<'a> Page<'a> {
    /// A page on which nothing stands yet.
    pub fn new(rt: &'a HostRuntime) -> Page<'a> {
        let is_written = true;
        Page { rt, is_written }
    }

    pub fn alloc(&self) -> Global {
        self.rt.alloc()
    }

    /// Prints a text and ends the line.
    pub fn line<D: Display + Drop>(&mut self, text: D) {
        let is_written = self.rt.println(text).is_ok();
        self.is_written &= is_written;
    }

    /// Prints a text, after which the line goes on.
    pub fn word<D: Display + Drop>(&mut self, text: D) {
        let is_written = self.rt.print(text).is_ok();
        self.is_written &= is_written;
    }

    /// 0 where all was written, and else 1.
    pub fn status(&self) -> ExitCode {
        ExitCode::from(u8::from(!self.is_written))
    }
}

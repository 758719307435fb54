// The cases in turn.
use crate::case::Case;
use crate::reading::read_line;
use crate::running::verdict;
use std::alloc::{AllocError, Global};
use std::sync::Wait;
use std::thread::Threads;

/// The case whose lines are read, and how many were run and left something else.
#[derive(Drop)]
pub(crate) struct Desk {
    case: Option<Case>,
    cases: u32,
    others: u32,
}

impl Desk {
    pub fn new() -> Desk {
        Desk {
            case: None,
            cases: 0,
            others: 0,
        }
    }

    /// Reads a line: it runs the case that ends with it, and tells what is to be told.
    pub fn take_line<R: Threads + Wait + Sync>(
        &mut self,
        rt: &R,
        alloc: Global,
        line: &str,
    ) -> Result<Option<String>, AllocError> {
        if line.is_empty() || line.starts_with('#') {
            return Ok(None);
        }
        if let Some(name) = line.strip_prefix("case ") {
            let told = self.run_case(rt, alloc)?;
            self.begin(alloc, name.to_string(alloc)?);
            return Ok(told);
        }
        if let Some(name) = line.strip_prefix("also ") {
            let told = self.run_case(rt, alloc)?;
            self.rename(alloc, name.to_string(alloc)?);
            return Ok(told);
        }
        self.read_line(alloc, line)
    }

    fn begin(&mut self, alloc: Global, name: String) {
        self.case = Some(Case::new(alloc, name));
    }

    fn rename(&mut self, alloc: Global, name: String) {
        if let Some(case) = self.case.as_mut() {
            case.rename(alloc, name);
        }
    }

    // A line of the case. One that has no form is told, and counts as a case that left something else.
    fn read_line(&mut self, alloc: Global, line: &str) -> Result<Option<String>, AllocError> {
        let is_read = match self.case.as_mut() {
            Some(case) => read_line(alloc, case, line)?,
            None => false,
        };
        if is_read {
            return Ok(None);
        }
        self.count_one(false);
        Ok(Some(format!(in alloc; "no line of a case: {line}")?))
    }

    fn count_one(&mut self, is_same: bool) {
        self.cases = self.cases.saturating_add(1);
        if !is_same {
            self.others = self.others.saturating_add(1);
        }
    }

    /// Runs the case whose lines were read, and tells of it.
    pub fn run_case<R: Threads + Wait + Sync>(
        &mut self,
        rt: &R,
        alloc: Global,
    ) -> Result<Option<String>, AllocError> {
        let Some(case) = self.case.as_ref() else {
            return Ok(None);
        };
        let (is_same, told) = verdict(rt, alloc, case)?;
        self.count_one(is_same);
        Ok(Some(told))
    }

    /// How many cases there were, and how many left something else.
    pub fn count(&self, alloc: Global) -> Result<String, AllocError> {
        let (cases, others) = (self.cases, self.others);
        format!(in alloc; "cases {cases}, others {others}")
    }
}

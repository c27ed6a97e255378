// How many lines were judged, and how.
use collating::Verdict;
use std::fmt;

#[derive(Clone, Copy, Default)]
pub struct Count {
    same: u64,
    differ: u64,
    unread: u64,
}

impl Count {
    pub fn add(&mut self, verdict: Verdict<usize>) {
        match verdict {
            Verdict::Same => self.same = self.same.saturating_add(1),
            Verdict::Differs(_) => self.differ = self.differ.saturating_add(1),
            Verdict::Unread => self.unread = self.unread.saturating_add(1),
        }
    }

    pub fn all_same(&self) -> bool {
        self.differ == 0 && self.unread == 0
    }
}

impl fmt::Display for Count {
    fn fmt<W: fmt::Write>(&self, f: &mut fmt::Formatter<W>) -> fmt::Result {
        let Count {
            same,
            differ,
            unread,
        } = self;
        write!(f, "{same} ok, {differ} differ, {unread} unread")
    }
}

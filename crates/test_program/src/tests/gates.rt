//! Gates, and what sections ask of them.

ghost use Rattle.std.specs.Prelude.{◌≡◌, ⊤};

use crate::tests::harness::outcome;
use brc_run::{Gate, RunOptions};
use std::process::Abort;
use std::sync::Wait;
use std::sync::atomic::{AtomicU32, AtomicU64, Ordering};
use std::test::*;
use std::thread;
use std::time::{Clock, Duration};

/// Lets every line through.
#[derive(Drop)]
pub(super) struct Open {
    pub(super) is_open: bool,
}

impl Gate for Open {
    ghost may_refuse = { λ _ _ _. ⊥ };

    fn at<R: Wait>(&self, _rt: &R, _section: u32, _line: u32) -> bool {
        true
    }
}

/// Holds each section at its first instruction until all have been asked about theirs, for at most 10,000 turns, each a
/// sleep of one millisecond.
struct Meeting<'c, C> {
    clock: &'c C,
    /// A bit for each section that was asked.
    asked: AtomicU64,
    all: u64,
}

impl<'c, C> Drop for Meeting<'c, C> {
    fn drop(self) {
        let Self {
            clock: _clock,
            asked: _asked,
            all: _all,
        } = self;
    }
}

impl<'c, C: Clock + Sync> Gate for Meeting<'c, C> {
    ghost may_refuse = { λ _ _ _. ⊤ };

    fn at<R: Wait>(&self, _rt: &R, section: u32, _line: u32) -> bool {
        let mine = 1u64.wrapping_shl(section.wrapping_sub(1));
        self.asked.fetch_or(mine, Ordering::SeqCst);
        for _turn in 0..10_000 {
            if self.asked.load(Ordering::SeqCst) == self.all {
                return true;
            }
            thread::sleep(self.clock, Duration::from_millis(1));
        }
        false
    }
}

/// Sections run at the same time: each is held until all are asked, and none ends with Busy.
#[test]
fn sections_meet(rt: HostRuntime) {
    for sections in [1u32, 2, 3, 63] {
        let mut text = String::new(rt.alloc());
        let mut wanted = String::new(rt.alloc());
        let mut all: u64 = 0;
        for section in 0..sections {
            let script = format!(in rt.alloc();
                "section s{section}\nint r0 {section}\nprint r0\ndrop r0\n"
            );
            text.push_str(script.expect(&rt, "memory").as_str())
                .expect(&rt, "memory");
            let line = format!(in rt.alloc(); "s{section}: {section}\n");
            wanted
                .push_str(line.expect(&rt, "memory").as_str())
                .expect(&rt, "memory");
            all = all.wrapping_mul(2).wrapping_add(1);
        }
        wanted.push_str("ledger 0 0 0\n").expect(&rt, "memory");
        let gate = Meeting {
            clock: &rt,
            asked: AtomicU64::new(0),
            all,
        };
        let told = outcome(&rt, rt.alloc(), text.as_str(), RunOptions::DEFAULT, &gate);
        assert_eq!(rt; told.as_str(), wanted.as_str());
    }
}

/// Refuses one line of one section, and keeps what it was asked, by section: of each ask one decimal digit, the line's
/// last.
#[derive(Drop)]
struct Refusing {
    section: u32,
    line: u32,
    first: AtomicU64,
    second: AtomicU64,
    others: AtomicU32,
}

/// One ask more.
fn keep(asked: &AtomicU64, line: u32) {
    let before = asked.load(Ordering::SeqCst);
    asked.store(
        before.wrapping_mul(10).wrapping_add((line % 10) as u64),
        Ordering::SeqCst,
    );
}

impl Gate for Refusing {
    ghost may_refuse = { λ gate section line. (section ≡ gate.section) × (line ≡ gate.line) };

    fn at<R: Wait>(&self, _rt: &R, section: u32, line: u32) -> bool {
        match section {
            1 => keep(&self.first, line),
            2 => keep(&self.second, line),
            _ => {
                self.others.fetch_add(1, Ordering::SeqCst);
            }
        }
        !(section == self.section && line == self.line)
    }
}

/// A gate is asked before each instruction of each section, in the order in which they run, and no more once it has
/// refused one.
#[test]
fn each_line_is_asked_for(rt: HostRuntime) {
    let text =
        "section a\nlist r0\nrepeat 2\nlen r1 r0\nprint r1\nend\nsection b\nint r0 1\nprint r0\n";
    let cases = [
        (
            "nothing refused",
            (0, 0),
            (24545, 89),
            "a: 0\na: 0\nb: 1\nledger 1 1 0\n",
        ),
        (
            "the first one's print",
            (1, 5),
            (245, 89),
            "a: fault 4 line 5\nb: 1\nledger 1 1 0\n",
        ),
        (
            "the second one's print",
            (2, 9),
            (24545, 89),
            "a: 0\na: 0\nb: fault 4 line 9\nledger 1 1 0\n",
        ),
        (
            "the first one's first",
            (1, 2),
            (2, 89),
            "a: fault 4 line 2\nb: 1\nledger 0 0 0\n",
        ),
        (
            "a line of another's",
            (2, 5),
            (24545, 89),
            "a: 0\na: 0\nb: 1\nledger 1 1 0\n",
        ),
    ];
    for (case, (section, line), (first, second), wanted) in cases {
        let gate = Refusing {
            section,
            line,
            first: AtomicU64::new(0),
            second: AtomicU64::new(0),
            others: AtomicU32::new(0),
        };
        let told = outcome(&rt, rt.alloc(), text, RunOptions::DEFAULT, &gate);
        assert_eq!(rt; told.as_str(), wanted, "{case}");
        assert_eq!(rt; gate.first.load(Ordering::SeqCst), first, "{case}");
        assert_eq!(rt; gate.second.load(Ordering::SeqCst), second, "{case}");
        assert_eq!(rt; gate.others.load(Ordering::SeqCst), 0, "{case}");
    }
}

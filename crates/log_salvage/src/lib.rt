// Salvage of a pass log: a walk from stretch to stretch that is lent the log alone and needs no room of its
// own; who calls it copies.
#![tactic(auto)]

ghost use Rattle.std.specs.Prelude.{false, not, ◌≡◌, ◌+◌, ◌-◌, ◌<◌, ◌≤◌, length, drop, IfSome};
ghost use Rattle.log_salvage.specs.Salvage.{size_of, stops_at, skips, stretch_at};

use log_records::length_at;

// A stretch of the log, by its start and its length: skipped, or a record that is kept.
#[derive(Clone, Copy)]
pub enum Stretch {
    Skipped { start: usize, length: usize },
    Kept { start: usize, length: usize },
}

impl Stretch {
    // How many bytes it has.
    pub fn length(self) -> usize
        ensures { result ≡ size_of self }
    {
        match self {
            Stretch::Skipped { length, .. } | Stretch::Kept { length, .. } => length,
        }
    }
}

// Whether a place is passed over: no record stands there and, where the log goes on behind the part, none
// can. Only this crate calls this function.
fn is_passed(part: &[u8], at: usize, last: bool) -> bool
    requires { at < length part.now }
    ensures { result ≡ not (stops_at last (drop at part.now)) }
{
    if length_at(part, at).is_some() {
        return false;
    }
    if last {
        return true;
    }
    71 <= part.len() - at
}

// The place of the next record, or of the end. Only this crate calls this function.
fn next_place(part: &[u8], at: usize, last: bool) -> usize
    ensures { result ≡ at + skips last (drop at part.now) }
{
    for p in at..part.len() {
        if !is_passed(part, p, last) {
            return p;
        }
    }
    at.max(part.len())
}

// The stretch that begins at the place `at`: a record that is kept, or the bytes up to the next one or the
// end. At the end there is none. `last` says that the log ends where the part does; where it goes on, a
// stretch skipped may go on with it, and where there is none, more of the log from `at` on is asked for.
pub fn next_stretch(part: &[u8], at: usize, last: bool) -> Option<Stretch>
    ensures value { result ≡ stretch_at part.now at last }
    ensures within { IfSome result (λ s. at + size_of s ≤ length part.now) }
    ensures short { result ≡ None → last ≡ false → length part.now - at < 71 }
{
    if let Some(length) = length_at(part, at) {
        return Some(Stretch::Kept { start: at, length });
    }
    let p = next_place(part, at, last);
    if p > at {
        return Some(Stretch::Skipped {
            start: at,
            length: p - at,
        });
    }
    None
}

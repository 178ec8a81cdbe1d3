//! The lines of a call.
ghost use Rattle.std.specs.Prelude.{◌≡◌, ◌+◌, ◌<◌, ◌≤◌, length, drop, nat_lt, position, IfSome, IfOk};
ghost use Rattle.std.specs.Result.{result_err};
ghost use Rattle.machine.specs.Shares.{cut};
ghost use Rattle.machine.specs.Histories.{lines_refused};
ghost use Rattle.cpu.specs.Measures.{Measures};

use crate::line;
use crate::share::Share;
use machine::Ticks;
use refusal::Refusal;

// The lines that one call takes at most.
const MOST_LINES: usize = 65_535;

// The place of the first line over 3.
fn first_over(lines: &[u8]) -> Option<usize>
    ensures { result ≡ position (λ line. nat_lt 3 line) lines.now }
{
    lines.iter().position(|line| *line > 3)
}

/// Lines that a call takes, or the rest of them.
#[derive(Clone, Copy)]
pub struct Lines<'a> {
    bytes: &'a [u8],
    ghost few: { length bytes.now ≤ 65535 },
}

impl<'a> Lines<'a> {
    /// Refuses more than 65,535 lines, and the first line over 3.
    pub fn checked(lines: &'a [u8]) -> Result<Lines<'a>, Refusal>
        ensures lines { IfOk result (λ checked. checked.bytes.now ≡ lines.now) }
        ensures refusal { result_err result ≡ lines_refused lines.now }
    {
        if lines.len() > MOST_LINES {
            return Err(Refusal::LinesTooMany);
        }
        if let Some(place) = first_over(lines) {
            return Err(Refusal::LineValue(place as u32));
        }
        Ok(Lines { bytes: lines })
    }

    pub fn as_slice(self) -> &'a [u8]
        ensures { result.now ≡ self.entry.bytes.now }
    {
        self.bytes
    }

    /// The share of an instruction of so many clocks, if a whole one is there: one look at each of its lines.
    pub fn share(self, count: u16, ticks: Ticks) -> Option<Share>
        requires { 1 ≤ count }
        ensures measured { Measures count ticks (cut count self.entry.bytes.now) result }
        ensures within { IfSome result (λ share. share.before + 1 ≤ length self.entry.bytes.now) }
    {
        // One loop and no chain: it counts two things and follows the ticks on the way.
        let mut more = count - 1;
        let mut ahead = 0;
        let mut seen = ticks;
        for (i, line) in self.bytes.iter().enumerate() {
            if line::is_stalled(*line) {
                if ahead == i {
                    ahead = i + 1;
                }
            } else {
                if more == 0 {
                    return Some(Share {
                        clocks: count,
                        before: i as u16,
                        ahead: ahead as u16,
                        last: *line,
                        ticks: seen,
                    });
                }
                more -= 1;
            }
            line::note(&mut seen, *line);
        }
        None
    }

    /// The lines after a share, which start in the middle of these.
    pub fn after(self, share: Share) -> Lines<'a>
        requires { share.before < length self.bytes.now }
        ensures { result.bytes.now ≡ drop (share.before + 1) self.entry.bytes.now }
    {
        let taken = usize::from(share.before) + 1;
        Lines {
            bytes: &self.bytes[taken..],
        }
    }
}

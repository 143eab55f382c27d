// The mark of a station on a profile: whether its mode was demanded, and since when, or kept.
ghost use Rattle.std.specs.Prelude.{◌≡◌, Bool};
ghost use Rattle.masks.specs.Mask.{mask, any, those, change_under, some_under};
ghost use Rattle.masks.specs.Walk.{Tells};
ghost use Rattle.members.specs.Mark.{as_word, as_mark, is_marked, is_kept, is_late, wipe_mark, drop_kept, demand, keep_mark, marks_with, remark};

use timing::reading::Reading;
use timing::settings::Settings;

#[derive(Clone, Copy, Debug, PartialEq, Eq)]
pub enum Mark {
    Unmarked,
    Demanded(u64),
    Kept,
}

impl Mark {
    pub fn is_kept(self) -> bool
        ensures { result ≡ is_kept self }
    {
        matches!(self, Mark::Kept)
    }

    // Whether it is demanded for `answer` or more ticks at the reading `now`.
    pub fn is_late(self, now: u64, answer: u64) -> bool
        ensures { result ≡ is_late answer now self }
    {
        match self {
            Mark::Demanded(since) => Reading::passed(since, answer, now),
            _ => false,
        }
    }

    // What in use does to a mark: a kept one goes.
    pub fn without_kept(self) -> Mark
        ensures { result ≡ drop_kept self }
    {
        match self {
            Mark::Kept => Mark::Unmarked,
            _ => self,
        }
    }

    // Since now unless already demanded.
    pub fn demanded(self, now: u64) -> Mark
        ensures { result ≡ demand now self }
    {
        match self {
            Mark::Demanded(_) => self,
            _ => Mark::Demanded(now),
        }
    }

    pub fn kept(self) -> Mark
        ensures { result ≡ keep_mark self }
    {
        match self {
            Mark::Demanded(_) => Mark::Kept,
            _ => self,
        }
    }
}

// The set of all stations, a bit for each of the sixteen.
pub const EVERYONE: u64 = 65_535;

// A mark as it is stored, an element of an array of marks: the reading since which the mode is demanded, or one of the
// two highest numbers, which no reading is. So a mark takes eight bytes, and each number is one mark.
// Kept: a number, since the mark itself takes sixteen bytes; a server has 1,024 of them, and `Server::step` moves them all.
#[derive(Clone, Copy, Debug, PartialEq, Eq)]
pub struct Marked {
    word: u64,
}

impl Marked {
    pub const NONE: u64 = u64::MAX;

    pub const KEPT: u64 = u64::MAX - 1;

    fn is_marked(self) -> bool
        ensures { result ≡ is_marked self }
    {
        self.word != Marked::NONE
    }
}

impl From<Mark> for Marked {
    ghost from_gives = { λ mark stored. stored ≡ as_word mark };

    fn from(mark: Mark) -> Marked {
        match mark {
            Mark::Unmarked => Marked { word: Marked::NONE },
            Mark::Demanded(since) => Marked { word: since },
            Mark::Kept => Marked { word: Marked::KEPT },
        }
    }
}

impl From<Marked> for Mark {
    ghost from_gives = { λ stored mark. mark ≡ as_mark stored };

    fn from(stored: Marked) -> Mark {
        match stored.word {
            Marked::NONE => Mark::Unmarked,
            Marked::KEPT => Mark::Kept,
            since => Mark::Demanded(since),
        }
    }
}

// One for each station.
pub type Marks = [Marked; Settings::STATIONS];

// The marks of a set of stations, changed.
fn change_in<F: Fn(Mark) -> Mark>(mut marks: Marks, set: u64, change: F) -> Marks
    requires { F.IsAlwaysCallable change }
    ensures { (f : Mark → Mark) → Tells (F.post change) f → result ≡ change_under (remark f) set marks }
{
    masks::change_under(
        &mut marks,
        set,
        |stored| Marked::from(change(Mark::from(stored))),
    );
    marks
}

// Whether a station of the set has a mark.
pub fn some_in(marks: Marks, set: u64) -> bool
    ensures { result ≡ some_under is_marked set marks }
{
    masks::some_under(&marks, set, |stored| stored.is_marked())
}

// Whether any station has a mark. No branch: most profiles have none, and a tick asks them all.
pub fn any_in(marks: &Marks) -> bool
    ensures { result ≡ any (those is_marked marks.now) }
{
    let mut some = false;
    for stored in marks {
        some |= stored.is_marked();
    }
    some
}

// The stations whose mark passes a test.
fn marks_in<F: Fn(Mark) -> bool>(marks: Marks, test: F) -> u64
    requires { F.IsAlwaysCallable test }
    ensures { (f : Mark → Bool) → Tells (F.post test) f → result ≡ mask (marks_with f marks) }
{
    masks::those(&marks, |stored| test(Mark::from(stored)))
}

// The stations with a kept mark.
pub fn kept_in(marks: Marks) -> u64
    ensures { result ≡ mask (marks_with is_kept marks) }
{
    marks_in(marks, |mark| mark.is_kept())
}

// The stations whose mode was demanded `answer` or more ticks ago, at the reading `now`.
pub fn late_in(marks: Marks, now: u64, answer: u64) -> u64
    ensures { result ≡ mask (marks_with (is_late answer now) marks) }
{
    marks_in(marks, |mark| mark.is_late(now, answer))
}

// The marks of a set of stations go.
pub fn wiped(marks: Marks, set: u64) -> Marks
    ensures { result ≡ change_under (remark wipe_mark) set marks }
{
    change_in(marks, set, |_| Mark::Unmarked)
}

// Their kept marks go.
pub fn without_kept(marks: Marks, set: u64) -> Marks
    ensures { result ≡ change_under (remark drop_kept) set marks }
{
    change_in(marks, set, |mark| mark.without_kept())
}

// Their modes are demanded.
pub fn demanded(marks: Marks, set: u64, now: u64) -> Marks
    ensures { result ≡ change_under (remark (demand now)) set marks }
{
    change_in(marks, set, |mark| mark.demanded(now))
}

// Their demanded marks become kept.
pub fn kept(marks: Marks, set: u64) -> Marks
    ensures { result ≡ change_under (remark keep_mark) set marks }
{
    change_in(marks, set, |mark| mark.kept())
}

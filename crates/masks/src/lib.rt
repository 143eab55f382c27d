// Sets of stations or profiles as masks of 64 bits, the first as the lowest bit.
// Kept: a mask is a plain number and no type of its own, since the answers of both engines carry it so.
#![tactic(auto)]

ghost use Rattle.std.specs.Prelude.{◌≡◌, ◌≤◌, length, take, Bool, ℕ};
ghost use Rattle.std.specs.Int.Count.{ones, count_trailing_zeros};
ghost use Rattle.masks.specs.Mask.{mask, those, those_at, change_under, some_under};
ghost use Rattle.masks.specs.Walk.{Tells, TellsAt};

// How many are in the set: the language's own count of ones.
pub fn count(mask: u64) -> u32
    ensures { result ≡ ones mask }
{
    u64::count_ones(mask)
}

// The bit of the last of sixteen stations.
const LAST: u64 = 32_768;

// The place at which a set of stations begins. Where none before the last is in it, that is the last one's place: so it is
// always a station's, also for a set of nobody.
pub fn first(stations: u64) -> usize
    ensures { result ≡ count_trailing_zeros 15 stations }
{
    u64::trailing_zeros(stations | LAST) as usize
}

// The set of those that pass a test, which is told each one's place too. A mask has 64 bits: those behind the first 64 are
// passed over.
pub fn those_at<T: Copy, F: Fn(usize, T) -> bool>(items: &[T], test: F) -> u64
    requires { F.IsAlwaysCallable test }
    ensures first { (f : ℕ → T → Bool) → TellsAt (F.post test) f → result ≡ mask (those_at f 0 (take 64 items.now)) }
    ensures fits { length items.now ≤ 64 → (f : ℕ → T → Bool) → TellsAt (F.post test) f → result ≡ mask (those_at f 0 items.now) }
{
    let items = &items[..items.len().min(u64::BITS as usize)];
    let mut mask: u64 = 0;
    for (i, item) in items.iter().enumerate() {
        if test(i, *item) {
            mask += 1 << i;
        }
    }
    mask
}

// The set of those that pass a test, among the first 64.
pub fn those<T: Copy, F: Fn(T) -> bool>(items: &[T], test: F) -> u64
    requires { F.IsAlwaysCallable test }
    ensures first { (f : T → Bool) → Tells (F.post test) f → result ≡ mask (those f (take 64 items.now)) }
    ensures fits { length items.now ≤ 64 → (f : T → Bool) → Tells (F.post test) f → result ≡ mask (those f items.now) }
{
    those_at(items, |_, item| test(item))
}

// Those in a set are changed.
pub fn change_under<T: Copy, F: Fn(T) -> T>(items: &mut [T], set: u64, change: F)
    requires { F.IsAlwaysCallable change }
    ensures { (f : T → T) → Tells (F.post change) f → items.new ≡ change_under f set items.old }
{
    let mut rest = set;
    for item in items.iter_mut() {
        if rest % 2 == 1 {
            *item = change(*item);
        }
        rest /= 2;
    }
}

// Whether one of those in a set passes a test. Those behind the last of the set are passed over.
fn some_from_start<T: Copy, F: Fn(T) -> bool>(items: &[T], set: u64, test: F) -> bool
    requires { F.IsAlwaysCallable test }
    ensures { (f : T → Bool) → Tells (F.post test) f → result ≡ some_under f set items.now }
{
    let mut rest = set;
    for item in items {
        if rest == 0 {
            return false;
        }
        if rest % 2 == 1 && test(*item) {
            return true;
        }
        rest /= 2;
    }
    false
}

// The same, with those before the first of the set passed over too: a set is often of one alone.
pub fn some_under<T: Copy, F: Fn(T) -> bool>(items: &[T], set: u64, test: F) -> bool
    requires { F.IsAlwaysCallable test }
    ensures { (f : T → Bool) → Tells (F.post test) f → result ≡ some_under f set items.now }
{
    let start = first(set);
    if items.len() < start {
        return false;
    }
    some_from_start(&items[start..], set >> start, test)
}

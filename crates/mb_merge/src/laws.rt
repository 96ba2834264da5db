//! Laws of the router over any list of calls. Each function does nothing; what is proved is its contract.

ghost use Rattle.std.specs.Prelude.{◌≡◌, ◌≢◌, ◌↔◌, ℕ, ◌<◌, ◌≤◌, List, length, slice_index_or, false, true, None};
ghost use Rattle.mb_merge.specs.Links.{Link, Merger, is_owned, link_at, link_of, owns, owns_out};
ghost use Rattle.mb_message.specs.declared.mark.Mark.{Mark};
ghost use Rattle.mb_merge.specs.Passing.{has_room, is_realtime_mark, least, next_of, passes_now};
ghost use Rattle.mb_merge.specs.Opening.{FaultIs, first_fault, opened, stands_in};
ghost use Rattle.mb_merge.specs.Calls.{Call, IsExclusive, IsFresh, IsLeast, IsOrderly, IsTracked, IsUnmixed};
ghost use Rattle.mb_merge.specs.Calls.{NoneMayPass, after_calls, begins};

/// From a router of which nothing was taken, whatever is called: no mark passes twice, none is lost, each source's
/// marks pass in its order but for real-time ones, no two sources that share an out have a SysEx open, and once drained
/// a source that owns its outs holds nothing, and each first held mark waits for an out that another source owns. What
/// passed to an out may stand there mark after mark, and no mark but a real-time one stands inside another source's
/// SysEx there.
pub fn orderly()
    ensures calls { (m : Merger) (calls : List Call) → IsFresh m → IsOrderly (after_calls (begins m) calls) }
    ensures tracked { (m : Merger) (calls : List Call) → IsFresh m → IsTracked m (after_calls (begins m) calls) }
    ensures unmixed { (m : Merger) (calls : List Call) → IsFresh m → IsUnmixed m (after_calls (begins m) calls).passed }
    ensures opened { (sources outs : ℕ) (routes : List (ℕ × ℕ)) → IsFresh (opened sources outs routes) }
{}

/// What passes next of the held marks is the one that arrived first, and of one arrival that of the lowest source.
pub fn least_is_first()
    ensures { (links : List Link) → IsLeast links (least links) }
{}

/// `next_passed` answers None exactly where no mark may pass: none was just offered that is to, and no first held mark
/// may.
pub fn none_passes()
    ensures { (m : Merger) → ((next_of m).0 ≡ None) ↔ ((m.offered ≡ None) × NoneMayPass m) }
{}

/// What it means that a source is owned: another one has an open SysEx on an out of it. An out has one owner at most.
pub fn owners()
    ensures who { (links : List Link) (source : ℕ) → is_owned links source ≡ true →
        (at : ℕ) × (at < length links) × (at ≢ source) × (owns (link_at links at) (link_at links source) ≡ true) }
    ensures owned { (links : List Link) (source at : ℕ) → at < length links → at ≢ source →
        owns (link_at links at) (link_at links source) ≡ true → is_owned links source ≡ true }
    ensures one { (links : List Link) (out i j : ℕ) → IsExclusive links → i < length links → j < length links →
        owns_out out (link_at links i) ≡ true → owns_out out (link_at links j) ≡ true → i ≡ j }
{}

/// What a fault of the opening means: `Count` that a number isn't 1 to 16; or else `Index` and `Twice` that all routes
/// before one are right, and this one isn't; no fault, that all are right.
pub fn faults()
    ensures { (sources outs : ℕ) (routes : List (ℕ × ℕ)) →
        FaultIs sources outs routes (first_fault sources outs routes) }
{}

/// A mark is refused exactly where it isn't real-time, may not pass now, and 1,024 marks of its source are held.
pub fn refusals()
    ensures { (m : Merger) (source : ℕ) (mark : Mark) → (has_room m source mark ≡ false)
        ↔ ((is_realtime_mark mark ≡ false) × (passes_now m source mark ≡ false) ×
        (1024 ≤ length (link_of m source).held)) }
{}

/// A router that was opened has so many sources, and goes from a source to an out exactly where that pair is one of the
/// routes.
pub fn routed()
    ensures count { (sources outs : ℕ) (routes : List (ℕ × ℕ)) → length (opened sources outs routes).links ≡ sources }
    ensures goes { (sources outs source out : ℕ) (routes : List (ℕ × ℕ)) → source < sources → out < 16 →
        slice_index_or (link_of (opened sources outs routes) source).outs out false ≡ stands_in (source, out) routes }
{}

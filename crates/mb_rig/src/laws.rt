//! Laws of a run on lists. Each function does nothing; what is proved is its contract.
//!
//! A run is a router, its links' states and what was played: the marks that were taken, with their keys and lines, and
//! those that passed, with their moments. `Course` says what is kept true of these between any two events.

ghost use Rattle.std.specs.Prelude.{◌≡◌, ◌<◌, ◌≤◌, ◌/◌, ◌++◌, true, false, ℕ, List, None, Some, Option, length};
ghost use Rattle.mb_message.specs.declared.mark.Mark.{Mark};
ghost use Rattle.mb_message.specs.Signs.{sign_of, suits_sign};
ghost use Rattle.mb_stream.specs.Denotation.{denotation};
ghost use Rattle.mb_stream.specs.Puts.{At, Put, signs_in};
ghost use Rattle.mb_stream.specs.Standing.{AreValid, is_open, suited};
ghost use Rattle.mb_ble.specs.Distances.{message_moments};
ghost use Rattle.mb_carrier.specs.Carrier.{den, written};
ghost use Rattle.mb_carrier.specs.Word.{IsSpec};
ghost use Rattle.mb_carrier.specs.declared.spec.Spec.{Spec};
ghost use Rattle.mb_merge.specs.declared.router.Passed.{Passed};
ghost use Rattle.mb_merge.specs.Links.{Merger, link_of};
ghost use Rattle.mb_merge.specs.Passing.{has_room, next_of, offered_in, passes_now};
ghost use Rattle.mb_rig.specs.RigText.{Setup};
ghost use Rattle.mb_rig.specs.Merging.Lines.{Key, Source, arrival_of, no_key};
ghost use Rattle.mb_rig.specs.Merging.Report.{goes, kind_of_sign, lines_to, moments_to, text_by, text_of};
ghost use Rattle.mb_rig.specs.Merging.Merged.{meant_by};
ghost use Rattle.mb_rig.specs.Merging.Orderly.{is_orderly_unstalled};
ghost use Rattle.mb_rig.specs.Merging.Playing.{Play, RisesFrom, begins_play, report_of, takes};
ghost use Rattle.mb_rig.specs.Merging.Course.{AreOfLinks, Course, IsLeastKey, IsNextKey, Links, MayOffer, first_links};
ghost use Rattle.mb_rig.specs.Merging.Course.{gives, greater, next_tag, renews, stalls, start_of};
ghost use Rattle.mb_rig.specs.Merging.Calm.{Calm};
ghost use Rattle.mb_rig.specs.Merging.Passes.{Passes, PassesOn};
ghost use Rattle.mb_rig.specs.Merging.Ended.{AreGiven, AreGivenFronts, IsMerged, IsMergedFront, MeansSoFar, puts_to};
ghost use Rattle.mb_rig.specs.Merging.Ended.{put_where, turns_in};

/// A run's course goes on, event by event: it starts with the links' first keys; a step begins at the least key of the
/// links that aren't stalled; a mark of a link is taken; a mark passes, or none does and the router is drained; a
/// link's record is used up, and its next one isn't earlier, or no SysEx is open behind its marks; a link is stalled
/// where its ring is full.
pub fn runs()
    ensures starts { (s : Setup) (present : ℕ → Option Key) → AreOfLinks present →
        Course s (start_of s) (first_links present) (no_key 0) begins_play }
    ensures begins { (s : Setup) (m : Merger) (links : Links) (greatest : Key) (play : Play) (key : Key) →
        Course s m links greatest play → m.draining ≡ false → IsLeastKey links key →
        Course s m links (greater greatest key) play }
    ensures takes { (s : Setup) (m : Merger) (links : Links) (greatest : Key) (play : Play) (x moment : ℕ)
        (mark : Mark) → Course s m links greatest play → MayOffer s m links greatest x moment mark →
        Course s (offered_in m x moment mark) (gives links x moment (sign_of mark)) greatest
        (takes play (passes_now m x mark) (next_tag links x moment (sign_of mark))) }
    ensures passes { (s : Setup) (m : Merger) (links : Links) (greatest : Key) (play : Play) →
        Course s m links greatest play → PassesOn s m links greatest play (next_of m).0 (next_of m).1 }
    ensures renews { (s : Setup) (m : Merger) (links : Links) (greatest : Key) (play : Play) (x : ℕ) (key : Key)
        (next : Option Key) → Course s m links greatest play → m.draining ≡ false → links.stalled x ≡ false →
        links.present x ≡ Some key → IsNextKey links x key next → Course s m (renews links x next) greatest play }
    ensures stalls { (s : Setup) (m : Merger) (links : Links) (greatest : Key) (play : Play) (x : ℕ) (key : Key) →
        Course s m links greatest play → m.draining ≡ false → links.stalled x ≡ false →
        links.present x ≡ Some key → 1024 ≤ length (link_of m x).held →
        Course s m (stalls links x) greatest play }
{}

/// Between steps, a link whose SysEx is open has a record, and where any link has one, a link has one that isn't
/// stalled; so a run comes to its end. Fewer than 1,024 marks of a link that aren't real-time leave room for one more.
pub fn runs_go_on()
    ensures owners { (s : Setup) (m : Merger) (links : Links) (greatest : Key) (play : Play) →
        Course s m links greatest play → m.draining ≡ false → (owner : ℕ) → (link_of m owner).is_open ≡ true →
        (key : Key) × (links.present owner ≡ Some key) }
    ensures progress { (s : Setup) (m : Merger) (links : Links) (greatest : Key) (play : Play) (x : ℕ) (key : Key) →
        Course s m links greatest play → m.draining ≡ false → links.present x ≡ Some key →
        (y : ℕ) × (other : Key) × (links.stalled y ≡ false) × (links.present y ≡ Some other) }
    ensures room { (s : Setup) (m : Merger) (links : Links) (greatest : Key) (play : Play) (x : ℕ) (mark : Mark) →
        Course s m links greatest play → m.draining ≡ false →
        length (turns_in (signs_in (links.given x))) < 1024 → has_room m x mark ≡ true }
{}

/// At the end, where no link has a record and each gave all marks of its source, the report is merged from the sources
/// and in order. Where the run stopped between steps, each gave a front of them: then each source's lines are a front.
pub fn runs_merge()
    ensures merged { (s : Setup) (m : Merger) (links : Links) (greatest : Key) (play : Play) (sources : List Source) →
        Course s m links greatest play → m.draining ≡ false → ((x : ℕ) → links.present x ≡ None) →
        AreGiven links 0 sources → IsMerged s sources (report_of play.passed) }
    ensures stopped { (s : Setup) (m : Merger) (links : Links) (greatest : Key) (play : Play)
        (sources : List Source) → Course s m links greatest play → play.offered ≡ None →
        AreGivenFronts links 0 sources → IsMergedFront s sources (report_of play.passed) }
    ensures keeps_up { (s : Setup) (m : Merger) (links : Links) (greatest : Key) (play : Play) →
        Course s m links greatest play → RisesFrom 0 play.passed (arrival_of greatest) }
{}

/// What passed to an out may stand there, mark after mark, and a mark that passes may stand next at each of its outs.
/// It means what the report's lines to that out mean, but for a last broken SysEx where one is open there; at the end,
/// just that, and so does what any carrier writes of it, with flushes between or not. Its messages have the moments of
/// passing of their lines.
pub fn runs_are_heard()
    ensures suits { (s : Setup) (m : Merger) (links : Links) (greatest : Key) (play : Play) (out : ℕ) →
        Course s m links greatest play → out < 16 →
        (suited (signs_in (puts_to s.routes out play.passed)) ≡ true) ×
        AreValid (signs_in (puts_to s.routes out play.passed)) }
    ensures next_suits { (s : Setup) (m now : Merger) (links : Links) (greatest : Key) (play : Play) (q : Passed)
        (out : ℕ) → Passes s m now links greatest play q → out < 16 → goes s.routes q.source out ≡ true →
        suits_sign (is_open (signs_in (puts_to s.routes out play.passed))) (sign_of q.mark) ≡ true }
    ensures heard { (s : Setup) (m : Merger) (links : Links) (greatest : Key) (play : Play) (out : ℕ) →
        Course s m links greatest play → out < 16 →
        MeansSoFar (signs_in (puts_to s.routes out play.passed)) (lines_to s.routes out (report_of play.passed)) }
    ensures means { (s : Setup) (m : Merger) (links : Links) (greatest : Key) (play : Play) (out : ℕ) →
        Course s m links greatest play → m.draining ≡ false → ((x : ℕ) → links.present x ≡ None) → out < 16 →
        denotation (signs_in (puts_to s.routes out play.passed))
        ≡ meant_by (lines_to s.routes out (report_of play.passed)) }
    ensures written { (s : Setup) (m : Merger) (links : Links) (greatest : Key) (play : Play) (out : ℕ) (spec : Spec)
        (puts : List Put) → Course s m links greatest play → m.draining ≡ false →
        ((x : ℕ) → links.present x ≡ None) → out < 16 → IsSpec spec →
        signs_in puts ≡ signs_in (puts_to s.routes out play.passed) →
        den spec (written spec puts) ≡ meant_by (lines_to s.routes out (report_of play.passed)) }
    ensures moments { (s : Setup) (m : Merger) (links : Links) (greatest : Key) (play : Play) (out : ℕ) →
        Course s m links greatest play →
        message_moments (puts_to s.routes out play.passed) ≡ moments_to s.routes out (report_of play.passed) }
{}

/// What a mark that passes adds: to each of its outs the mark, at the moment of its passing; to the report a line of
/// text where it completes something.
pub fn passing_tells()
    ensures put { (s : Setup) (m now : Merger) (links : Links) (greatest : Key) (play : Play) (q : Passed) (out : ℕ) →
        (passes : Passes s m now links greatest play q) → puts_to s.routes out passes.after.passed
        ≡ put_where (goes s.routes q.source out) (At (arrival_of greatest) (sign_of q.mark))
        (puts_to s.routes out play.passed) }
    ensures line { (s : Setup) (m now : Merger) (links : Links) (greatest : Key) (play : Play) (q : Passed) →
        (passes : Passes s m now links greatest play q) → text_of (report_of passes.after.passed)
        ≡ text_of (report_of play.passed)
        ++ text_by (q.arrival / 1000) (arrival_of greatest) q.source (kind_of_sign (sign_of q.mark)) }
{}

/// Where no link was ever stalled, a late line was held back exactly: it isn't real-time, and a SysEx line of another
/// source that shares was under way at its key, and one at that of the line before it. Passing keeps it calm by
/// `PassesOn`.
pub fn calm_runs()
    ensures starts { (s : Setup) (present : ℕ → Option Key) →
        Calm s (start_of s) (first_links present) (no_key 0) begins_play }
    ensures begins { (s : Setup) (m : Merger) (links : Links) (greatest : Key) (play : Play) (x : ℕ) (key : Key) →
        Course s m links greatest play → Calm s m links greatest play → m.draining ≡ false →
        links.present x ≡ Some key → IsLeastKey links key → Calm s m links (greater greatest key) play }
    ensures takes { (s : Setup) (m : Merger) (links : Links) (greatest : Key) (play : Play) (x moment : ℕ)
        (mark : Mark) → Course s m links greatest play → Calm s m links greatest play →
        MayOffer s m links greatest x moment mark →
        Calm s (offered_in m x moment mark) (gives links x moment (sign_of mark)) greatest
        (takes play (passes_now m x mark) (next_tag links x moment (sign_of mark))) }
    ensures renews { (s : Setup) (m : Merger) (links : Links) (greatest : Key) (play : Play) (x : ℕ) (key : Key)
        (next : Option Key) → Calm s m links greatest play → links.present x ≡ Some key →
        IsNextKey links x key next → Calm s m (renews links x next) greatest play }
    ensures orderly { (s : Setup) (m : Merger) (links : Links) (greatest : Key) (play : Play) →
        Calm s m links greatest play → is_orderly_unstalled s.routes (report_of play.passed) ≡ true }
{}

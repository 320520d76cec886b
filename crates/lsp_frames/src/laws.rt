//! Laws of frames. Each function carries one, and does nothing.

ghost use Rattle.std.specs.Prelude.{◌≡◌, ◌≢◌, ◌≤◌, ◌<◌, ◌^◌, ◌++◌, ℕ, List, length, drop, slice_range};
ghost use Rattle.lsp_frames.specs.declared.heads.Taken.{Taken};
ghost use Rattle.lsp_frames.specs.declared.heads.Taken.TheVariants.{Frame, More};
ghost use Rattle.lsp_frames.specs.Reading.{IsRead};
ghost use Rattle.lsp_frames.specs.Frames.{IsFrame, AreFrames, written};
ghost use Rattle.lsp_frames.specs.examples.Rows.{Rows};

/// Bytes are read in one way: they are a frame, a part of one, or refused, and never two of these.
pub fn one_reading()
    ensures { (limit : ℕ) (bytes : List ℕ) (one other : Taken) → IsRead limit bytes one → IsRead limit bytes other → one ≡ other }
{}

/// What follows a frame, or what is refused, changes nothing: so a stream is read alike however it is cut.
pub fn more_changes_nothing()
    ensures { (limit : ℕ) (bytes more : List ℕ) (taken : Taken) → IsRead limit bytes taken → taken ≢ More → IsRead limit (bytes ++ more) taken }
{}

/// What is read as a frame is one.
pub fn what_is_read()
    ensures { (limit : ℕ) (bytes : List ℕ) (begins ends : ℕ) → IsRead limit bytes (Frame begins ends)
        → IsFrame limit bytes (slice_range bytes begins ends) (drop ends bytes) }
{}

/// A frame is read as one.
pub fn what_is_a_frame()
    ensures { (limit : ℕ) (bytes body rest : List ℕ) → IsFrame limit bytes body rest
        → (begins : ℕ) × (ends : ℕ) × IsRead limit bytes (Frame begins ends) × (body ≡ slice_range bytes begins ends) × (rest ≡ drop ends bytes) }
{}

/// The frame that is written of a body is a frame with that body, whatever follows it.
pub fn what_is_written()
    ensures { (limit : ℕ) (body rest : List ℕ) → length body ≤ limit → limit < 2 ^ 32 → IsFrame limit (written body ++ rest) body rest }
{}

/// Frames of what has come, and then those of what is left of it and comes later, are the frames of the whole.
pub fn frames_join()
    ensures { (limit : ℕ) (bytes more left rest : List ℕ) (bodies others : List (List ℕ)) → AreFrames limit bytes bodies left
        → AreFrames limit (left ++ more) others rest → AreFrames limit (bytes ++ more) (bodies ++ others) rest }
{}

/// The worked rows hold.
pub fn rows_hold()
    ensures { Rows }
{}

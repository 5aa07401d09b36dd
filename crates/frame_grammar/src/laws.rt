//! Laws of heads, frames and sessions, each the contract of a function that does nothing: a caller
//! that calls it may use it.

ghost use Rattle.std.specs.Prelude.{◌≡◌, ◌≢◌, ◌+◌, ◌<◌, ◌≤◌, ℕ, List, [], ◌∷◌, ◌++◌, length, take, drop};
ghost use Rattle.std.specs.List.{AllByRecursion};
ghost use Rattle.frame_grammar.specs.Reading.{IsHeadAt};
ghost use Rattle.frame_grammar.specs.Frames.{Frame, IsFrame, frame_bytes, stream_bytes, NoFrame, NeverFrame, IsSession, reached};
ghost use Rattle.frame_grammar.specs.Frames.{HeadParts, IsHead, head_bytes, head_of, frame_of, NoHead};

/// A text is cut once at its first byte of a kind: neither piece before that byte has it.
pub fn one_cut()
    ensures { (stop : ℕ) (a b x y : List ℕ) →
        AllByRecursion (λ byte. byte ≢ stop) a → AllByRecursion (λ byte. byte ≢ stop) b →
        a ++ stop ∷ x ≡ b ++ stop ∷ y → (a ≡ b) × (x ≡ y) }
{}

/// A text has one head at its front.
pub fn one_head()
    ensures { (g h : HeadParts) (x y : List ℕ) → IsHead g → IsHead h →
        head_bytes g x ≡ head_bytes h y → (g ≡ h) × (x ≡ y) }
{}

/// A text has one frame at its front.
pub fn one_frame()
    ensures { (f g : Frame) (x y : List ℕ) → IsFrame f → IsFrame g →
        frame_bytes f x ≡ frame_bytes g y → (f ≡ g) × (x ≡ y) }
{}

/// A text is one stream of frames, up to a rest that begins with none.
pub fn one_stream()
    ensures { (fs gs : List Frame) (x y : List ℕ) →
        AllByRecursion IsFrame fs → AllByRecursion IsFrame gs →
        NoFrame x → NoFrame y → stream_bytes fs x ≡ stream_bytes gs y → (fs ≡ gs) × (x ≡ y) }
{}

/// A text has one session: its frames and its rest are determined.
pub fn one_session()
    ensures { (bytes : List ℕ) (fs gs : List Frame) (x y : List ℕ) →
        IsSession bytes fs x → IsSession bytes gs y → (fs ≡ gs) × (x ≡ y) }
{}

/// Frames that stand at the front, and the session of the bytes after them, are the session of
/// all the bytes.
pub fn session_behind()
    ensures streams { (fs gs : List Frame) (rest : List ℕ) →
        stream_bytes (fs ++ gs) rest ≡ stream_bytes fs (stream_bytes gs rest) }
    ensures sessions { (bytes middle : List ℕ) (fs gs : List Frame) (rest : List ℕ) →
        AllByRecursion IsFrame fs → bytes ≡ stream_bytes fs middle → IsSession middle gs rest
        → IsSession bytes (fs ++ gs) rest }
{}

/// The offset that a session reaches and the bytes of its rest are all the bytes.
pub fn session_reaches()
    ensures { (bytes : List ℕ) (fs : List Frame) (rest : List ℕ) →
        IsSession bytes fs rest → reached bytes rest + length rest ≡ length bytes }
{}

/// Bytes that come later stand after the head, the frame or the frames that stand at the front.
pub fn goes_on()
    ensures heads { (h : HeadParts) (rest more : List ℕ) →
        head_bytes h rest ++ more ≡ head_bytes h (rest ++ more) }
    ensures frames { (f : Frame) (rest more : List ℕ) →
        frame_bytes f rest ++ more ≡ frame_bytes f (rest ++ more) }
    ensures streams { (fs : List Frame) (rest more : List ℕ) →
        stream_bytes fs rest ++ more ≡ stream_bytes fs (rest ++ more) }
{}

/// A head and a body of the length that it says are a frame, and a frame is its head and its body.
pub fn head_and_body()
    ensures good { (h : HeadParts) (body : List ℕ) →
        IsHead h → length body ≡ h.length → IsFrame (frame_of h body) }
    ensures joined { (h : HeadParts) (body rest : List ℕ) → length body ≡ h.length →
        head_bytes h (body ++ rest) ≡ frame_bytes (frame_of h body) rest }
    ensures taken { (bytes : List ℕ) (h : HeadParts) (size : ℕ) →
        IsHeadAt bytes h size → size + h.length ≤ length bytes →
        let frame = frame_of h (take h.length (drop size bytes)) in
        IsFrame frame × (bytes ≡ frame_bytes frame (drop (size + h.length) bytes)) }
    ensures parted { (f : Frame) → IsFrame f → IsHead (head_of f) }
    ensures cut { (f : Frame) (rest : List ℕ) →
        frame_bytes f rest ≡ head_bytes (head_of f) (f.body ++ rest) }
{}

/// Where no head stands, or a head after which fewer bytes have come than its body has, and where
/// nothing has come, no frame stands.
pub fn no_frame_yet()
    ensures head { (bytes : List ℕ) → NoHead bytes → NoFrame bytes }
    ensures body { (bytes : List ℕ) (h : HeadParts) (rest : List ℕ) → IsHead h →
        bytes ≡ head_bytes h rest → length rest < h.length → NoFrame bytes }
    ensures nothing { NoFrame [] }
{}

/// A head has bytes.
pub fn heads_have_bytes()
    ensures { (h : HeadParts) (rest : List ℕ) → 0 < length (head_bytes h rest) }
{}

/// Where no frame can come, none stands, none can come after bytes that come later, and a byte has come.
pub fn never_a_frame()
    ensures now { (bytes : List ℕ) → NeverFrame bytes → NoFrame bytes }
    ensures later { (bytes more : List ℕ) →
        NeverFrame bytes → NeverFrame (bytes ++ more) }
    ensures heads { (bytes : List ℕ) →
        NeverFrame bytes → (more : List ℕ) → NoHead (bytes ++ more) }
    ensures some { (bytes : List ℕ) → NeverFrame bytes → 0 < length bytes }
{}

//! Laws of heads, messages and streams, each the contract of a function that does nothing: a caller
//! that calls it may use it.

ghost use Rattle.std.specs.Prelude.{◌≡◌, ◌<◌, ℕ, List, [], ◌++◌, length};
ghost use Rattle.httparse.specs.Grammar.{HasNoRequest};
ghost use Rattle.desk_http.specs.declared.head.HeadParts.{HeadParts};
ghost use Rattle.desk_http.specs.Heads.{IsHead, Message, IsMessage, NoHead, NoMessage, NeverMessage, IsStream};

/// A text has one head and one message at its front.
pub fn one_message()
    ensures heads { (bytes : List ℕ) (g h : HeadParts) (x y : List ℕ) →
        IsHead bytes g x → IsHead bytes h y → (g ≡ h) × (x ≡ y) }
    ensures messages { (bytes : List ℕ) (m n : Message) (x y : List ℕ) →
        IsMessage bytes m x → IsMessage bytes n y → (m ≡ n) × (x ≡ y) }
{}

/// A text is one stream of messages, up to a rest that begins with none or stands after one that closes.
pub fn one_stream()
    ensures { (bytes : List ℕ) (ms ns : List Message) (x y : List ℕ) →
        IsStream bytes ms x → IsStream bytes ns y → (ms ≡ ns) × (x ≡ y) }
{}

/// Bytes that come later stand after the head or the message that stands at the front.
pub fn goes_on()
    ensures heads { (bytes : List ℕ) (h : HeadParts) (rest more : List ℕ) →
        IsHead bytes h rest → IsHead (bytes ++ more) h (rest ++ more) }
    ensures messages { (bytes : List ℕ) (m : Message) (rest more : List ℕ) →
        IsMessage bytes m rest → IsMessage (bytes ++ more) m (rest ++ more) }
{}

/// Where no head stands, or a head after which fewer bytes have come than its body has, no message stands. None stands
/// where there are no bytes.
pub fn no_message_yet()
    ensures request { (bytes : List ℕ) → HasNoRequest bytes → NoMessage bytes }
    ensures head { (bytes : List ℕ) → NoHead bytes → NoMessage bytes }
    ensures body { (bytes : List ℕ) (h : HeadParts) (rest : List ℕ) →
        IsHead bytes h rest → length rest < h.length → NoMessage bytes }
    ensures nothing { NoMessage [] }
{}

/// Where no message can come, none stands, and none can come after bytes that come later. A byte has come: before the
/// first one any message can.
pub fn never_a_message()
    ensures now { (bytes : List ℕ) → NeverMessage bytes → NoMessage bytes }
    ensures later { (bytes more : List ℕ) → NeverMessage bytes → NeverMessage (bytes ++ more) }
    ensures some { (bytes : List ℕ) → NeverMessage bytes → 0 < length bytes }
{}

//! Laws of files and their parcels, each the contract of a function that does nothing: a caller that calls it may use
//! it.

ghost use Rattle.std.specs.Prelude.{◌≡◌, ◌⊎◌, ◌+◌, ℕ, List, [], ◌++◌, ◌∷◌};
ghost use Rattle.obs_journal.specs.Parcels.{RawParcel, IsParcel, parcel_bytes};
ghost use Rattle.obs_journal.specs.Files.{Spells, IsDamagedAt};
ghost use Rattle.obs_journal.specs.Journals.{IsDoubtfulIn};
ghost use Rattle.obs_journal.specs.Formats.{room_in, row_length_in};
ghost use Rattle.obs_journal.specs.declared.format.Format.TheVariants.{Chained};
ghost use Rattle.obs_journal.specs.Chains.{IsInForce, IsChain, IsBrokenAt};

/// A first file spells at most one list of parcels.
pub fn one_list()
    ensures { (file : List ℕ) (ps qs : List RawParcel) → Spells file ps → Spells file qs → ps ≡ qs }
{}

/// A damaged first file spells no list, and is damaged at one offset alone.
pub fn damage()
    ensures no_list { (file : List ℕ) (offset : ℕ) (ps : List RawParcel) →
        IsDamagedAt file offset → Spells file ps → ⊥ }
    ensures one_offset { (file : List ℕ) (m n : ℕ) → IsDamagedAt file m → IsDamagedAt file n → m ≡ n }
{}

/// One parcel stands at the front of bytes, at most.
pub fn one_parcel()
    ensures { (p q : RawParcel) (x y : List ℕ) → IsParcel p → IsParcel q →
        parcel_bytes p ++ x ≡ parcel_bytes q ++ y → (p ≡ q) × (x ≡ y) }
{}

/// A chained file spells at most one list of parcels, and is in force.
pub fn one_chain()
    ensures one { (file : List ℕ) (ps qs : List RawParcel) → IsChain file ps → IsChain file qs → ps ≡ qs }
    ensures in_force { (file : List ℕ) (ps : List RawParcel) → IsChain file ps → IsInForce file }
{}

/// A damaged chained file spells no list, is damaged at one offset alone, and is in force.
pub fn broken_chain()
    ensures no_list { (file : List ℕ) (offset : ℕ) (ps : List RawParcel) →
        IsBrokenAt file offset → IsChain file ps → ⊥ }
    ensures one_offset { (file : List ℕ) (m n : ℕ) → IsBrokenAt file m → IsBrokenAt file n → m ≡ n }
    ensures in_force { (file : List ℕ) (offset : ℕ) → IsBrokenAt file offset → IsInForce file }
{}

/// A chained file that holds parcels, and one in doubt after them, spells those parcels, without that one or with it.
pub fn doubtful_chain()
    ensures { (file : List ℕ) (parcels : List RawParcel) (doubt : RawParcel) →
        IsDoubtfulIn Chained file parcels doubt → IsChain file parcels ⊎ IsChain file (parcels ++ doubt ∷ []) }
{}

/// One parcel more takes its room in a chained file.
pub fn chain_room()
    ensures { (parcels : List RawParcel) (parcel : RawParcel) →
        row_length_in Chained (parcels ++ parcel ∷ []) ≡ row_length_in Chained parcels + room_in Chained parcel }
{}

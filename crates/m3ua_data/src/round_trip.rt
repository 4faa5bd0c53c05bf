//! Reading and writing fit each other.
ghost use Rattle.std.specs.Prelude.{◌≡◌, ◌≤◌, ◌<◌, ◌^◌, length, None, Ok, List, ℕ};
ghost use Rattle.std.specs.List.{AllByRecursion};
ghost use Rattle.m3ua_data.specs.DataIs.{DataIs, IsSound};
ghost use Rattle.m3ua_data.specs.Reading.{reading};
ghost use Rattle.m3ua_data.specs.Written.{first_long, written};
ghost use Rattle.m3ua_data.specs.declared.tagged.Tagged.{Tagged};

/// What is written of a sound message is read as that message, if its tags, its parameters and their number fit the format.
pub fn written_reads()
    ensures reads { (v : List Tagged) → length v ≤ 1024 → AllByRecursion (λ p. p.tag < 2 ^ 16) v → first_long 0 v ≡ None → IsSound v
        → DataIs (written v) v }
    ensures exact { (v : List Tagged) → length v ≤ 1024 → AllByRecursion (λ p. p.tag < 2 ^ 16) v → first_long 0 v ≡ None → IsSound v
        → reading (written v) ≡ Ok v }
{}

/// Octets are one DATA message at most.
pub fn one_message()
    ensures { (b : List ℕ) (v w : List Tagged) → DataIs b v → DataIs b w → v ≡ w }
{}

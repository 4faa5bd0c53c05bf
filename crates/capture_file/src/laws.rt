// The main properties of the definitions, over any file. Each function has a law as its contract, and does nothing.
ghost use Rattle.std.specs.Prelude.{◌≡◌, ◌≤◌, ◌<◌, ◌++◌, ℕ, Bool, true, false, List, [], length, None};
ghost use Rattle.capture_file.specs.declared.order.Order.{Order};
ghost use Rattle.capture_file.specs.declared.file_kind.FileKind.TheVariants.{Pcap, Pcapng};
ghost use Rattle.capture_file.specs.Packets.{Captured, Told, with_front};
ghost use Rattle.capture_file.specs.Units.{kind_of};
ghost use Rattle.capture_file.specs.Told.{told};
ghost use Rattle.capture_file.specs.Spelled.{AreOctets, IsPcap, IsUndamaged, cut_off};
ghost use Rattle.capture_file.specs.Sections.{AreSections, IsPcapng};

/// A pcap file gives its packets. It is cut off exactly if it ends in a part of a record, and then where this record begins.
pub fn pcap_files_are_read()
    ensures { (b : List ℕ) (packets : List Captured) (rest : List ℕ) → IsPcap b packets rest →
        told true b ≡ record { packets = packets; fault = cut_off b rest } }
{}

/// Octets that begin with a magic number of pcap and have a whole heading are a pcap file with the packets that they give,
/// unless they are damaged.
pub fn what_is_read_is_pcap()
    ensures { (order : Order) (b : List ℕ) → AreOctets b → kind_of b ≡ Pcap order → 24 ≤ length b → IsUndamaged (told true b).fault →
        (rest : List ℕ) × IsPcap b (told true b).packets rest }
{}

/// A pcapng file of whole sections gives the packets of their blocks.
pub fn pcapng_files_are_read()
    ensures { (b : List ℕ) (packets : List Captured) → AreSections b packets [] → 0 < length b →
        told true b ≡ record { packets = packets; fault = None } }
{}

/// Octets that begin with the type of a section header are whole sections, and perhaps the beginning of one block more, unless they
/// are damaged. They give the packets of these sections, and at most the packet of that block.
pub fn what_is_read_is_pcapng()
    ensures { (b : List ℕ) → AreOctets b → kind_of b ≡ Pcapng → 4 ≤ length b → IsUndamaged (told true b).fault →
        IsPcapng b (told true b) }
{}

/// The beginning of a file gives the first of the packets that the file gives.
pub fn beginnings_give_first_packets()
    ensures { (whole : Bool) (b rest : List ℕ) →
        (after : Told) × (told whole (b ++ rest) ≡ with_front (told false b).packets after) }
{}

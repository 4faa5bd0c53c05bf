//! A text that is being written.
ghost use Rattle.std.specs.Prelude.{◌≡◌, [], ◌∷◌, ◌++◌, decimal, OnOk};
ghost use Rattle.hex.specs.Hex.{encode_upper};
ghost use Rattle.sccp_report.specs.Values.{numbered, octets_text};

use sccp_base::{Octets, OutOfMemory};
use std::alloc::Global;
use std::marker::Model;

/// A text that is being written, as octets. After an error its end is not specified: it is to be dropped.
#[derive(Drop)]
pub struct Text {
    alloc: Global,
    octets: Vec<u8>,
}

impl Model for Text {
    ghost use Rattle.std.specs.Prelude.{ℕ, List};

    ghost Value = { List ℕ };

    ghost view = { λ t. t.octets.items };
}

impl Text {
    /// An empty text. What is appended takes its memory from this allocator.
    pub fn new(alloc: Global) -> Self
        ensures { result ≡ [] }
    {
        Text {
            alloc,
            octets: Vec::new(alloc),
        }
    }

    /// The octets written so far. The text is used up.
    pub fn into_octets(self) -> Octets
        ensures { result ≡ self }
    {
        Octets::from_vec(self.octets)
    }

    /// The octets written so far.
    pub fn as_slice(&self) -> &[u8]
        ensures { result.now ≡ self.now }
    {
        self.octets.as_slice()
    }

    /// Appends words unchanged.
    pub fn put(&mut self, words: &[u8]) -> Result<(), OutOfMemory>
        ensures { OnOk result (self.new ≡ self.old ++ words.now) }
    {
        self.octets.extend_from_slice(words)?;
        Ok(())
    }

    /// Appends a number in decimal.
    pub fn put_number(&mut self, number: u32) -> Result<(), OutOfMemory>
        ensures { OnOk result (self.new ≡ self.old ++ decimal number) }
    {
        self.put(itoa::Buffer::new().format(number).as_bytes())
    }

    /// Appends a place or a count in decimal.
    pub fn put_count(&mut self, count: usize) -> Result<(), OutOfMemory>
        ensures { OnOk result (self.new ≡ self.old ++ decimal count) }
    {
        self.put(itoa::Buffer::new().format(count).as_bytes())
    }

    /// Appends a name and a number after it.
    #[tactic(auto, unfolding(crate::specs::Values::numbered))]
    pub fn put_numbered(&mut self, name: &[u8], number: u32) -> Result<(), OutOfMemory>
        ensures { OnOk result (self.new ≡ self.old ++ numbered name.now number) }
    {
        self.put(name)?;
        self.put_number(number)
    }

    /// Appends a name and a place or a count after it.
    #[tactic(auto, unfolding(crate::specs::Values::numbered))]
    pub fn put_counted(&mut self, name: &[u8], count: usize) -> Result<(), OutOfMemory>
        ensures { OnOk result (self.new ≡ self.old ++ numbered name.now count) }
    {
        self.put(name)?;
        self.put_count(count)
    }

    // The hexadecimal digits of octets, two for each.
    fn put_hexadecimal(&mut self, octets: &[u8]) -> Result<(), OutOfMemory>
        ensures { OnOk result (self.new ≡ self.old ++ encode_upper octets.now) }
    {
        let digits = hex::encode_upper(self.alloc, octets)?;
        self.put(digits.as_bytes())
    }

    /// Appends the two hexadecimal digits of an octet.
    pub fn put_octet(&mut self, octet: u8) -> Result<(), OutOfMemory>
        ensures { OnOk result (self.new ≡ self.old ++ encode_upper (octet ∷ [])) }
    {
        self.put_hexadecimal(&[octet])
    }

    /// Appends octets in hexadecimal, or a dash if there is none.
    #[tactic(auto, unfolding(crate::specs::Values::octets_text))]
    pub fn put_octets(&mut self, octets: &[u8]) -> Result<(), OutOfMemory>
        ensures { OnOk result (self.new ≡ self.old ++ octets_text octets.now) }
    {
        match octets {
            [] => self.put(b"-"),
            _ => self.put_hexadecimal(octets),
        }
    }
}

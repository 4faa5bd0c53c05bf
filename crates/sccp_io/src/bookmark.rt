//! The reading of one file of a list in memory.
ghost use Rattle.std.specs.Prelude.{◌≡◌, ◌<◌, ◌≤◌, ◌+◌, ◌^◌, ◌++◌, Some, None, [], true, false, length, take, drop, MatchOption};
ghost use Rattle.sccp_io.specs.Memory.{file_named, file_at, files_in, left_of};

/// Which file of a list is open, and how far it was read.
#[derive(Drop)]
pub struct Bookmark {
    place: Option<usize>,
    from: usize,
}

impl Bookmark {
    /// No file is open.
    pub fn new() -> Self
        ensures { result.place ≡ None }
    {
        Bookmark {
            place: None,
            from: 0,
        }
    }

    /// Opens the first file of that name, if there is one, and says whether there is.
    pub fn begin(&mut self, files: &[(String, Vec<u8>)], name: &str) -> bool
        ensures begun { result ≡ true → file_named (files_in files.now) name.now
            ≡ Some (left_of (files_in files.now) self.new.place self.new.from) }
        ensures absent { result ≡ false → file_named (files_in files.now) name.now ≡ None }
        ensures same { result ≡ false → self.new ≡ self.old }
    {
        match place_of(files, name) {
            Some(place) => {
                self.place = Some(place);
                self.from = 0;
                true
            }
            None => false,
        }
    }

    /// Copies the next octets of the open file to the front of the buffer, and gives their number.
    pub fn take(&mut self, files: &[(String, Vec<u8>)], buffer: &mut [u8]) -> usize
        requires { 0 < length buffer.old }
        ensures bound { result ≤ length buffer.new }
        ensures next { left_of (files_in files.now) self.old.place self.old.from
            ≡ take result buffer.new ++ left_of (files_in files.now) self.new.place self.new.from }
        ensures end { result ≡ 0 → left_of (files_in files.now) self.new.place self.new.from ≡ [] }
    {
        let count = copy_front(self.rest(files), buffer);
        self.from += count;
        count
    }

    /// The octets that are left of the open file. If none is open, there are none.
    fn rest<'a>(&self, files: &'a [(String, Vec<u8>)]) -> &'a [u8]
        ensures left { result.now ≡ left_of (files_in files.now) self.now.place self.now.from }
        ensures room { 0 < length result.now → self.now.from + length result.now < 2 ^ 64 }
    {
        match self.place {
            Some(place) if place < files.len() => octets_from(&files[place].1, self.from),
            _ => &[],
        }
    }
}

/// The place of the first file of that name. `None` if there is none.
fn place_of(files: &[(String, Vec<u8>)], name: &str) -> Option<usize>
    ensures { MatchOption result (file_named (files_in files.now) name.now ≡ None)
        (λ place. file_named (files_in files.now) name.now ≡ Some (file_at (files_in files.now) place)) }
{
    for (place, file) in files.iter().enumerate() {
        if file.0.as_str() == name {
            return Some(place);
        }
    }
    None
}

/// The octets from a place on. If that is past the end, there are none.
fn octets_from(octets: &[u8], from: usize) -> &[u8]
    ensures left { result.now ≡ drop from octets.now }
    ensures room { 0 < length result.now → from + length result.now < 2 ^ 64 }
{
    if from < octets.len() {
        &octets[from..]
    } else {
        &[]
    }
}

/// Copies as many of the octets as the buffer has room for, and gives their number.
fn copy_front(octets: &[u8], buffer: &mut [u8]) -> usize
    ensures bound { result ≤ length octets.now }
    ensures fits { result ≤ length buffer.new }
    ensures copied { take result buffer.new ≡ take result octets.now }
    ensures all { result ≡ 0 → 0 < length buffer.old → octets.now ≡ [] }
{
    let count = octets.len().min(buffer.len());
    buffer[..count].copy_from_slice(&octets[..count]);
    count
}

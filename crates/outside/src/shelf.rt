// Places for files in memory. All room is taken when a place is made, so a write takes no memory. A name is looked
// up by going through the places, of which there are few.
ghost use Rattle.std.specs.Prelude.{◌≡◌, ◌≤◌, ◌+◌, ◌-◌, ◌↔◌, ◌++◌, Some, None, option_map, IfOk, IsErrOf, IsTrue, length, map, take, vec_len, vec_capacity, bytes_eq};
ghost use Rattle.outside.specs.FileMaps.{Gives};
ghost use Rattle.outside.specs.Shelf.{FilePlace, vacant_place, files_of, HasRoom, written};

use crate::ReadAnswer;
use no_memory::NoMemory;
use std::alloc::Global;
use std::marker::Model;

/// Room for one file in memory.
#[derive(Clone, Copy, Debug)]
pub struct FileRoom<'a> {
    /// The file's name.
    pub name: &'a str,
    /// How many bytes the file has at most.
    pub room: usize,
}

// Room for one file.
#[derive(Drop)]
pub(crate) struct Place {
    name: String,
    room: usize,
    is_there: bool,
    bytes: Vec<u8>,
}

impl Model for Place {
    ghost use Rattle.std.specs.Prelude.{◌≤◌, Some, None, if◌then◌else◌, string_bytes, vec_capacity};
    ghost use Rattle.outside.specs.Shelf.{FilePlace};

    ghost Value = { FilePlace };

    ghost view = { λ p. record { name = string_bytes p.name; room = p.room; bytes = (if p.is_there then Some p.bytes.items else None) } };

    ghost invariant = { λ p. p.room ≤ vec_capacity p.bytes };
}

impl Place {
    // A place without a file, with its room.
    fn new(alloc: Global, name: &str, room: usize) -> Result<Place, NoMemory>
        ensures { IfOk result (λ p. p ≡ vacant_place name.now room) }
    {
        Ok(Place {
            name: String::from_str(alloc, name)?,
            room,
            is_there: false,
            bytes: Vec::with_capacity(alloc, room)?,
        })
    }

    fn is_named(&self, name: &str) -> bool
        ensures { result ≡ bytes_eq self.now.name name.now }
    {
        self.name.as_str() == name
    }

    fn file(&self) -> Option<&[u8]>
        ensures { option_map (λ b. b.now) result ≡ self.now.bytes }
    {
        if self.is_there {
            Some(&self.bytes)
        } else {
            None
        }
    }

    // The file begins anew and gets of these bytes what fits. Says whether all did.
    fn keep(&mut self, bytes: &[u8]) -> bool
        ensures place { self.new ≡ record self.old { bytes = Some (take self.old.room bytes.now) } }
        ensures all { IsTrue result ↔ (length bytes.now ≤ self.old.room) }
    {
        self.is_there = true;
        self.bytes.clear();
        keep_front(&mut self.bytes, self.room, bytes)
    }
}

// Puts behind the kept bytes those of the new ones that fit the room, which was taken before. Says whether all did.
pub(crate) fn keep_front(kept: &mut Vec<u8>, room: usize, bytes: &[u8]) -> bool
    requires within { vec_len kept.old ≤ room }
    requires taken { room ≤ vec_capacity kept.old }
    ensures items { kept.new.items ≡ kept.old.items ++ take (room - vec_len kept.old) bytes.now }
    ensures all { IsTrue result ↔ (vec_len kept.old + length bytes.now ≤ room) }
    ensures within { vec_len kept.new ≤ room }
    ensures capacity { vec_capacity kept.old ≤ vec_capacity kept.new }
{
    let (front, rest) = bytes.split_at(bytes.len().min(room - kept.len()));
    // There is room, so this succeeds.
    let _ = kept.extend_from_slice(front);
    rest.is_empty()
}

// A place of each of these names and rooms, without a file.
pub(crate) fn make_places(alloc: Global, rooms: &[FileRoom<'_>]) -> Result<Vec<Place>, NoMemory>
    ensures { IfOk result (λ v. v.items ≡ map (λ r. vacant_place r.name.now r.room) rooms.now) }
{
    let mut places = Vec::with_capacity(alloc, rooms.len())?;
    for row in rooms {
        places.push(Place::new(alloc, row.name, row.room)?)?;
    }
    Ok(places)
}

// The file of this name.
pub(crate) fn find_file<'a>(places: &'a [Place], name: &str) -> Option<&'a [u8]>
    ensures { option_map (λ b. b.now) result ≡ files_of places.now name.now }
{
    for place in places {
        if place.is_named(name) {
            return place.file();
        }
    }
    None
}

// The first `most + 1` bytes of the file of this name, or all where it has fewer.
pub(crate) fn read_file(
    places: &[Place],
    alloc: Global,
    name: &str,
    most: usize,
) -> Result<Vec<u8>, ReadAnswer>
    ensures bytes { IfOk result (λ v. Gives (Some (files_of places.now)) name.now most v.items) }
    ensures failed { IsErrOf result ReadAnswer.Failed ↔ (files_of places.now name.now ≡ None) }
{
    let Some(bytes) = find_file(places, name) else {
        return Err(ReadAnswer::Failed);
    };
    let front = &bytes[..bytes.len().min(most.saturating_add(1))];
    match front.to_vec(alloc) {
        Ok(kept) => Ok(kept),
        Err(_) => Err(ReadAnswer::NoMemory),
    }
}

// Gives the file of this name of these bytes what fits its place. Says whether there is a place and all did.
pub(crate) fn write_file(places: &mut [Place], name: &str, bytes: &[u8]) -> bool
    ensures places { places.new ≡ written places.old name.now bytes.now }
    ensures all { IsTrue result ↔ HasRoom places.old name.now (length bytes.now) }
{
    for place in places.iter_mut() {
        if place.is_named(name) {
            return place.keep(bytes);
        }
    }
    false
}

// The answers of lookup and open by what was found, and the read of a mounted volume.
#![tactic(auto)]

ghost use Rattle.std.specs.Prelude.{◌≡◌, List};
ghost use Rattle.calls.specs.Answers.{read_seen};
ghost use Rattle.calls.specs.Lookup.{kind_of, lookup_answer, file_only, open_answer};
ghost use Rattle.calls.specs.declared.Descriptor.{Descriptor};
ghost use Rattle.path_walk.specs.Resolved.{meaning_by};
ghost use Rattle.mount_state.specs.State.{Safe, Holds};
ghost use Rattle.call_read.specs.Reads.{Reads};

use calls::{BytesRead, DIRECTORY, FILE, Lookup, Numbered, Opened, Refusal};
use file_read::read_file;
use mount_state::Mounted;
use path_walk::is_live;
use record_read::is_directory_id;

// The number of the kind of an inode, by its id.
fn kind_number(id: u32) -> u32
    ensures { result ≡ kind_of id }
{
    let directory = is_directory_id(id);
    if directory { DIRECTORY } else { FILE }
}

// The inode of an id, with its kind.
fn looked_up(id: u32) -> Lookup
    ensures { result ≡ record { number = 0; id = id; kind = kind_of id } }
{
    Lookup {
        number: 0,
        id,
        kind: kind_number(id),
    }
}

// The answer of a lookup: id and kind of what was found.
pub fn lookup_answer<R: Numbered>(found: Result<u32, R>) -> Lookup
    ensures { result ≡ lookup_answer (meaning_by R.code found) }
{
    match found {
        Ok(id) => looked_up(id),
        Err(refusal) => Lookup {
            number: refusal.number(),
            ..Lookup::default()
        },
    }
}

// The file of an id, at its start.
fn opened(id: u32) -> Opened
    ensures { result ≡ record { number = 0; id = id; position = 0 } }
{
    Opened {
        number: 0,
        id,
        position: 0,
    }
}

// The answer of a refused open.
fn not_opened<R: Numbered>(refusal: R) -> Opened
    ensures { result ≡ record { number = R.code refusal; id = 0; position = 0 } }
{
    Opened {
        number: refusal.number(),
        ..Opened::default()
    }
}

// The answer of an open: a handle at the start of the file that was found. A directory cannot be opened.
pub fn open_answer<R: Numbered>(found: Result<u32, R>) -> Opened
    ensures { result ≡ open_answer (file_only (meaning_by R.code found)) }
{
    match found {
        Ok(id) if is_directory_id(id) => not_opened(Refusal::WrongKind),
        Ok(id) => opened(id),
        Err(refusal) => not_opened(refusal),
    }
}

// Reads the file of an id from a position on, into the front of a lent buffer; a refused read leaves the buffer as it is.
pub fn read_mounted(
    image: &[u8],
    tables: &[u32],
    m: Mounted,
    id: u32,
    position: u32,
    buffer: &mut [u8],
) -> Result<BytesRead, Refusal>
    requires { Safe image.now m tables.now }
    ensures { (ds : List Descriptor) → Holds image.now ds m tables.now → Reads image.now ds id position buffer.old (read_seen result) buffer.new }
{
    if !is_live(&m.inode_rows(image, tables), id) {
        return Err(Refusal::NotFound);
    }
    if is_directory_id(id) {
        return Err(Refusal::WrongKind);
    }
    read_file(&m.block_rows(image, tables), id, position, buffer)
}

// The cases of a file, one blob after another. A case is its kind (1), its number of blobs (1), and each blob after its
// length (4). The file is taken to hold whole cases.
#![tactic(auto)]

ghost use Rattle.std.specs.Prelude.{[], ◌∷◌, ◌≤◌, length, IfSome};
ghost use Rattle.std.specs.Io.KnownBytes.{Consumes};
ghost use Rattle.case_files.specs.Code.{BlobRead};

use std::io;
use std::io::Read;

// What stands in front of a case's blobs.
#[derive(Clone, Copy)]
pub struct Head {
    pub kind: u8,
    pub blobs: u8,
}

// The head of the next case, if there is another one.
pub fn read_head<R: Read>(file: &mut R) -> Option<Head>
    ensures { IfSome result (λ head. Consumes (R.remaining file.old) (R.remaining file.new) (head.kind ∷ head.blobs ∷ [])) }
{
    let mut two = [0u8; 2];
    file.read_exact(&mut two).ok()?;
    let [kind, blobs] = two;
    Some(Head { kind, blobs })
}

// The next four bytes as a number: those that are there stand in front, and zeros for those that the file lacks.
fn read_length<R: Read>(file: &mut R) -> usize {
    let mut four = [0u8; 4];
    let _ = file.read_exact(&mut four);
    u32::from_le_bytes(four) as usize
}

// Reads the next blob to a place of the buffer, and says where it ends there. One for which there is no room is passed over.
// Where none is there, the buffer holds nothing of use.
pub fn read_blob<R: Read>(file: &mut R, buf: &mut [u8], at: usize) -> Option<usize>
    requires { at ≤ length buf.old }
    ensures { IfSome result (λ end. BlobRead buf.old at buf.new end) }
{
    let n = read_length(file);
    if buf.len() - at < n {
        let _ = io::copy(&mut file.take(n as u64), &mut io::sink());
        return None;
    }
    let end = at + n;
    file.read_exact(&mut buf[at..end]).ok()?;
    Some(end)
}

// A point that is handed over in parts, written as a record into a lent slice (document 02, U1). It is not verified: "a drill may need an
// ill-formed point".
#![tactic(auto)]

ghost use Rattle.std.specs.Prelude.{◌≡◌, length};
ghost use Rattle.reasons.specs.Refusal.{numbered};
ghost use Rattle.compose.specs.Draft.{composition, output};
ghost use Rattle.compose.specs.Code.{draft_of};
ghost use Rattle.compose.specs.Composed.{PointsComposed};

mod draft;
mod put;

pub use draft::Draft;
use reasons::Refusal;

// Writes the record of a draft into the front of the output; answers how many bytes it wrote.
#[tactic(auto, using(crate::proofs::Called::composed_facts))]
pub fn compose(draft: &Draft, out: &mut [u8]) -> Result<u32, Refusal>
    ensures same { numbered result ≡ composition (draft_of draft.now) (length out.old) }
    ensures written { out.new ≡ output (draft_of draft.now) out.old (composition (draft_of draft.now) (length out.old)) }
{
    if !draft.are_maps() {
        return Err(Refusal::Record);
    }
    if !draft.is_in_domain() {
        return Err(Refusal::Domain);
    }
    let orders = draft.orders().ok_or(Refusal::Twice)?;
    let len = draft.record_len();
    if out.len() < len {
        return Err(Refusal::Output);
    }
    put::put_record(out, draft, &orders);
    Ok(len as u32)
}

// Ticket U1's statement on points that we compose ourselves, as a promise: without its proof this crate is not proved, nor any that uses it.
pub fn points_composed()
    ensures { PointsComposed }
{}

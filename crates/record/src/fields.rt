// A whole record with the places of its fields.
ghost use Rattle.std.specs.Prelude.{◌≡◌, true};
ghost use Rattle.record.specs.Record.{start_of, content_of, well_shaped};
ghost use Rattle.record.specs.Code.{PlacesOf};

use crate::{Places, content_from, known_shape};

#[derive(Clone, Copy)]
pub struct Fields<'a> {
    pub rec: &'a [u8],
    pub at: Places,
    pub ghost shaped: { well_shaped rec.now ≡ true },
    pub ghost placed: { PlacesOf rec.now at },
}

impl<'a> Fields<'a> {
    // Of a whole record, found in one walk. That a record is whole is asked where a Fields of it is made: after that the Fields says it.
    pub fn find(rec: &'a [u8]) -> Fields<'a>
        requires { well_shaped rec.now ≡ true }
        ensures { result.rec.now ≡ rec.now }
    {
        let at = known_shape(rec).at;
        Fields { rec, at }
    }

    // The content of each field, as a part of the record. One by the name of each field, as in Places, so that no caller counts them;
    // each is one call of content_from.
    #[tactic(auto, using(crate::proofs::Laws::start_first))]
    pub fn id(&self) -> &'a [u8]
        ensures { result.now ≡ content_of self.now.rec.now 0 }
    {
        content_from(self.rec, 0, self.at.payload, 0)
    }

    pub fn payload(&self) -> &'a [u8]
        ensures { result.now ≡ content_of self.now.rec.now 1 }
    {
        content_from(self.rec, self.at.payload, self.at.includes, 1)
    }

    pub fn includes(&self) -> &'a [u8]
        ensures { result.now ≡ content_of self.now.rec.now 2 }
    {
        content_from(self.rec, self.at.includes, self.at.witness, 2)
    }

    pub fn witness(&self) -> &'a [u8]
        ensures { result.now ≡ content_of self.now.rec.now 3 }
    {
        content_from(self.rec, self.at.witness, self.at.evidence, 3)
    }

    pub fn evidence(&self) -> &'a [u8]
        ensures { result.now ≡ content_of self.now.rec.now 4 }
    {
        content_from(self.rec, self.at.evidence, self.at.anchor_proof, 4)
    }

    pub fn anchor_proof(&self) -> &'a [u8]
        ensures { result.now ≡ content_of self.now.rec.now 5 }
    {
        content_from(self.rec, self.at.anchor_proof, self.at.anchor_trigger, 5)
    }

    pub fn anchor_trigger(&self) -> &'a [u8]
        ensures { result.now ≡ content_of self.now.rec.now 6 }
    {
        content_from(self.rec, self.at.anchor_trigger, self.at.role, 6)
    }

    pub fn role(&self) -> &'a [u8]
        ensures { result.now ≡ content_of self.now.rec.now 7 }
    {
        content_from(self.rec, self.at.role, self.at.times, 7)
    }

    #[tactic(auto, using(crate::proofs::Laws::start_last))]
    pub fn times(&self) -> &'a [u8]
        ensures { result.now ≡ content_of self.now.rec.now 8 }
    {
        content_from(self.rec, self.at.times, self.rec.len(), 8)
    }
}

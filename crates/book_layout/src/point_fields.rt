// The fields of a record that says a point, which is not made of them.
ghost use Rattle.std.specs.Prelude.{◌≡◌, true, is_some};
ghost use Rattle.point.specs.Reading.{read_point};

use record::Fields;

#[derive(Clone, Copy)]
pub struct PointFields<'a> {
    pub fields: Fields<'a>,
    pub ghost reads: { is_some (read_point fields.rec.now) ≡ true },
}

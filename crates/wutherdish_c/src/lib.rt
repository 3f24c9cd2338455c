// The calls of crate wutherdish, exported to C under the same names: a static library. The parameters are document 01's, in its
// order; those of calls that tickets add are in the header's.
#![tactic(auto)]

ghost use Rattle.std.specs.Prelude.{◌≡◌, true, length};
ghost use Rattle.map.specs.declared.Arrangement.TheVariants.{Pairs, Columns};
ghost use Rattle.point.specs.Converted.{conversion, output};
ghost use Rattle.compose.specs.Draft.{draft, composition};
ghost use Rattle.compose.specs.Draft as compose;
ghost use Rattle.reasons.specs.Refusal.{filled_number, filled_count};
ghost use Rattle.rules.specs.Judge.{tested, verify_with, verify_buffer, flags_ok, judge_with};
ghost use Rattle.parts.specs.Limits.{peers_room};
ghost use Rattle.rules.specs.Force.{force_with, number_told, list_told, count_told};
ghost use Rattle.books.specs.Calls.{open_number, open_bytes, offer_bytes};
ghost use Rattle.books.specs.Offer.{offer_of};
ghost use Rattle.rules.specs.Answer.{verify_number, verify_answer, judge_number, judge_answer};
ghost use Rattle.rules.specs.Clearing.{tested_without, clearing_with, clearing_number, clearing_answer};
ghost use Rattle.rules.specs.Trail.{trail_with, rows_told, trail_told};
ghost use Rattle.trail.specs.Call.{trail_answer};
ghost use Rattle.wutherdish.specs.Version.{version};

// Verifies a point. Answers document 01's number, or 0 with the verdict in `answer` and the unknown peers in `peers`; with a
// number no lent byte changes.
#[unsafe(no_mangle)]
pub extern "C" fn wutherdish_verify(
    settings: &[u8],
    schedule: &[u8],
    rec: &[u8],
    peers: &mut [u8],
    answer: &mut [u8; 114],
) -> u8
    ensures number { result ≡ verify_number
        (verify_with (tested settings.now schedule.now rec.now true (length peers.old))) }
    ensures told { answer.new ≡ verify_answer
        (verify_with (tested settings.now schedule.now rec.now true (length peers.old))) answer.old }
    ensures buffer { peers.new ≡ verify_buffer
        (tested settings.now schedule.now rec.now true (length peers.old)) peers.old }
{
    wutherdish::wutherdish_verify(settings, schedule, rec, peers, answer)
}

// Judges a point by the list of its dependencies, in the order of their arrival; answers as verifying does.
#[unsafe(no_mangle)]
pub extern "C" fn wutherdish_judge(
    settings: &[u8],
    schedule: &[u8],
    rec: &[u8],
    leader: u8,
    presence: u8,
    list: &[u8],
    peers: &mut [u8],
    answer: &mut [u8; 114],
) -> u8
    ensures number { result ≡ judge_number
        (judge_with leader presence list.now
        (tested settings.now schedule.now rec.now (flags_ok leader presence) (length peers.old))) }
    ensures told { answer.new ≡ judge_answer
        (judge_with leader presence list.now
        (tested settings.now schedule.now rec.now (flags_ok leader presence) (length peers.old)))
        answer.old }
    ensures buffer { peers.new ≡ verify_buffer
        (tested settings.now schedule.now rec.now (flags_ok leader presence) (length peers.old))
        peers.old }
{
    wutherdish::wutherdish_judge(
        settings, schedule, rec, leader, presence, list, peers, answer,
    )
}

// Judges as wutherdish_judge does, and writes a row of eight bytes for each reason that it set, in the order of judging, into the front of
// `trail`, their count into `rows`. Number 15, after judging's, if `trail` has space for fewer.
#[unsafe(no_mangle)]
pub extern "C" fn wutherdish_trail(
    settings: &[u8],
    schedule: &[u8],
    rec: &[u8],
    leader: u8,
    presence: u8,
    list: &[u8],
    peers: &mut [u8],
    trail: &mut [u8],
    rows: &mut u32,
    answer: &mut [u8; 114],
) -> u8
    ensures number { result ≡ judge_number
        (trail_answer leader presence list.now
        (tested settings.now schedule.now rec.now (flags_ok leader presence) (length peers.old)) (length trail.old)) }
    ensures told { answer.new ≡ judge_answer
        (trail_answer leader presence list.now
        (tested settings.now schedule.now rec.now (flags_ok leader presence) (length peers.old)) (length trail.old))
        answer.old }
    ensures buffer { peers.new ≡ verify_buffer
        (tested settings.now schedule.now rec.now (flags_ok leader presence) (length peers.old))
        peers.old }
    ensures count { rows.new ≡ rows_told
        (trail_answer leader presence list.now
        (tested settings.now schedule.now rec.now (flags_ok leader presence) (length peers.old)) (length trail.old))
        (trail_with leader presence list.now
        (tested settings.now schedule.now rec.now (flags_ok leader presence) (length peers.old)))
        rows.old }
    ensures filled { trail.new ≡ trail_told
        (trail_answer leader presence list.now
        (tested settings.now schedule.now rec.now (flags_ok leader presence) (length peers.old)) (length trail.old))
        (trail_with leader presence list.now
        (tested settings.now schedule.now rec.now (flags_ok leader presence) (length peers.old)))
        trail.old }
{
    wutherdish::wutherdish_trail(
        settings, schedule, rec, leader, presence, list, peers, trail, rows, answer,
    )
}

// Tells of a point whose verdict is TransInvalid which certificate would clear it. Takes and tests what judging does, without a peer buffer.
// Answers document 01's number, or 0 with 69 bytes in `answer`: 0 not waiting, 1 no single mark, 2 the point of that id; then the id,
// zeros but for 2. With a number no lent byte changes.
#[unsafe(no_mangle)]
pub extern "C" fn wutherdish_clearing(
    settings: &[u8],
    schedule: &[u8],
    rec: &[u8],
    leader: u8,
    presence: u8,
    list: &[u8],
    answer: &mut [u8; 69],
) -> u8
    ensures number { result ≡ clearing_number
        (clearing_with leader presence list.now
        (tested_without settings.now schedule.now rec.now leader presence)) }
    ensures told { answer.new ≡ clearing_answer
        (clearing_with leader presence list.now
        (tested_without settings.now schedule.now rec.now leader presence))
        answer.old }
{
    wutherdish::wutherdish_clearing(settings, schedule, rec, leader, presence, list, answer)
}

// Opens a book in a slice, with its settings. Answers 1, 5, or 0 where it is open; with a number no byte changes.
#[unsafe(no_mangle)]
pub extern "C" fn wutherdish_open(book: &mut [u8], settings: &[u8]) -> u8
    ensures number { result ≡ open_number settings.now (length book.old) }
    ensures opened { book.new ≡ open_bytes settings.now book.old }
{
    wutherdish::wutherdish_open(book, settings)
}

// Offers a point to a book, which keeps it unless the verdict is Fail; answers as verifying does.
#[unsafe(no_mangle)]
pub extern "C" fn wutherdish_offer(
    book: &mut [u8],
    schedule: &[u8],
    leader: u8,
    rec: &[u8],
    peers: &mut [u8],
    answer: &mut [u8; 114],
) -> u8
    ensures number { result ≡ judge_number
        (offer_bytes book.old (offer_of schedule.now leader rec.now peers.old)).answer }
    ensures told { answer.new ≡ judge_answer
        (offer_bytes book.old (offer_of schedule.now leader rec.now peers.old)).answer answer.old }
    ensures buffer { peers.new ≡ (offer_bytes book.old
        (offer_of schedule.now leader rec.now peers.old)).peers }
    ensures left { book.new ≡ (offer_bytes book.old
        (offer_of schedule.now leader rec.now peers.old)).after }
{
    wutherdish::wutherdish_offer(book, schedule, leader, rec, peers, answer)
}

// Moves a point record from the arrangement before ticket U5, pairs, into columns. Answers 3, 14, or 0 with the record in the front of
// `out` and its length in `written`; with a number no lent byte changes.
#[unsafe(no_mangle)]
pub extern "C" fn wutherdish_pairs_to_columns(rec: &[u8], out: &mut [u8], written: &mut u32) -> u8
    ensures number { result ≡ filled_number (conversion Pairs rec.now (length out.old)) }
    ensures filled { out.new ≡ output Pairs rec.now out.old (conversion Pairs rec.now (length out.old)) }
    ensures count { written.new ≡ filled_count (conversion Pairs rec.now (length out.old)) written.old }
{
    wutherdish::wutherdish_pairs_to_columns(rec, out, written)
}

// And back, from columns into pairs; answers likewise.
#[unsafe(no_mangle)]
pub extern "C" fn wutherdish_columns_to_pairs(rec: &[u8], out: &mut [u8], written: &mut u32) -> u8
    ensures number { result ≡ filled_number (conversion Columns rec.now (length out.old)) }
    ensures filled { out.new ≡ output Columns rec.now out.old (conversion Columns rec.now (length out.old)) }
    ensures count { written.new ≡ filled_count (conversion Columns rec.now (length out.old)) written.old }
{
    wutherdish::wutherdish_columns_to_pairs(rec, out, written)
}

// Writes the record of a point that is handed over in parts, its maps in any order. Answers 3, 4, 13, 14, or 0 with the record in the
// front of `out` and its length in `written`; with a number no lent byte changes.
#[unsafe(no_mangle)]
pub extern "C" fn wutherdish_write(
    id: &[u8; 68],
    payload_len: u32,
    payload_bytes: u32,
    includes: &[u8],
    witness: &[u8],
    evidence: &[u8],
    proof: &[u8; 102],
    trigger: &[u8; 102],
    role: u8,
    seq_no: u8,
    is_last: u8,
    time: u64,
    anchor_time: u64,
    out: &mut [u8],
    written: &mut u32,
) -> u8
    ensures { let d = draft id.now payload_len payload_bytes includes.now witness.now evidence.now proof.now trigger.now role seq_no
        is_last time anchor_time in
        let given = composition d (length out.old) in
        (result ≡ filled_number given) × (out.new ≡ compose.output d out.old given) × (written.new ≡ filled_count given written.old) }
{
    wutherdish::wutherdish_write(
        id,
        payload_len,
        payload_bytes,
        includes,
        witness,
        evidence,
        proof,
        trigger,
        role,
        seq_no,
        is_last,
        time,
        anchor_time,
        out,
        written,
    )
}

// Tells what the network can force: judges as `wutherdish_judge` does, without a peer buffer. Answers 1 to 4, 6 to 9, 17, or 0 with a row of
// eight bytes for each reason that some order of the entries gives in the front of `out`, and how many there are in `rows`; with a number no
// lent byte changes.
#[unsafe(no_mangle)]
pub extern "C" fn wutherdish_force(
    settings: &[u8],
    schedule: &[u8],
    rec: &[u8],
    leader: u8,
    presence: u8,
    list: &[u8],
    out: &mut [u8],
    rows: &mut u32,
) -> u8
    ensures { let given = force_with leader presence list.now
        (tested settings.now schedule.now rec.now (flags_ok leader presence) peers_room) (length out.old) in
        (result ≡ number_told given) × (out.new ≡ list_told given out.old) × (rows.new ≡ count_told given rows.old) }
{
    wutherdish::wutherdish_force(settings, schedule, rec, leader, presence, list, out, rows)
}

// Answers which library this is: ABI, format, major and minor version, a byte each.
#[unsafe(no_mangle)]
pub extern "C" fn wutherdish_version() -> u32
    ensures { result ≡ version }
{
    wutherdish::wutherdish_version()
}

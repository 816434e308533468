// The word layout of a translation: the kind of access by number, the result written into a slice.
#![tactic(auto)]

ghost use Rattle.std.specs.Prelude.{◌≡◌, [], ◌∷◌, ◌++◌, length, drop};
ghost use Rattle.std.proofs.lemmas.List.Edits.{sets};
ghost use Rattle.listing.specs.Listing.{answer_words, translation_size, translation_words};
ghost use Rattle.translate.specs.Translated.{translated};
ghost use Rattle.listing.specs.Taken.{put_kind};

use hart::state::Hart;
use image::Image;
use rules::Kind;
use stages::PLACES;
use translate::Answer;

// Where the list begins, and how many words a translation's result takes.
const LIST_AT: usize = 7;

pub const TRANSLATION: usize = LIST_AT + 4 * PLACES;

// The first seven words: what it came to, up to five words of it, and the count.
fn put_seven(out: &mut [u64], to: u64, a: u64, b: u64, c: u64, d: u64, e: u64, count: u64)
    requires { length out.old ≡ translation_size }
    ensures { out.new ≡ sets out.old 0 (to ∷ a ∷ b ∷ c ∷ d ∷ e ∷ count ∷ []) }
{
    out[0] = to;
    out[1] = a;
    out[2] = b;
    out[3] = c;
    out[4] = d;
    out[5] = e;
    out[6] = count;
}

// The answer and the count, before the list.
fn put_answer(x: Answer, count: u64, out: &mut [u64])
    requires { length out.old ≡ translation_size }
    ensures { out.new ≡ answer_words x ++ (count ∷ drop 7 out.old) }
{
    match x {
        Answer::Address(m) => put_seven(&mut *out, 0, m.0, 0, 0, 0, 0, count),
        Answer::Refused(r) => put_seven(&mut *out, 2, u64::from(r), 0, 0, 0, 0, count),
        Answer::Fault(f) => {
            let flag = bits::select(f.flag, 1, 0);
            put_seven(
                &mut *out, 1, f.cause, f.value, f.value2, f.word, flag, count,
            )
        }
    }
}

// The translation of an access into a slice of the right length: the list where it stands, the answer before it, then zeros behind.
fn translate_into(
    h: Hart,
    base: u64,
    bytes: &[u8],
    kind: Kind,
    address: u64,
    width: u64,
    out: &mut [u64],
)
    requires { length out.old ≡ translation_size }
    ensures { out.new ≡ translation_words (translated h base bytes.now kind address width) }
{
    match translate::starts(h, base, bytes.len() as u64, kind, address, width) {
        Err(x) => {
            put_answer(x, 0, &mut *out);
            engine::clear(LIST_AT, TRANSLATION, &mut *out);
        }
        Ok(a) => {
            let w = engine::walk_into(Image::new(base, bytes), a, LIST_AT, &mut *out);
            let count = (w.next - LIST_AT) / 4;
            put_answer(Answer::from(w.reached), count as u64, &mut *out);
            engine::clear(w.next, TRANSLATION, &mut *out);
        }
    }
}

// Translates, writes the result and returns 0. Writes nothing and returns 1 where a length is wrong, that of the hart's slice
// (given) or the result's, else 2 where no kind of access has the number.
pub fn put_translation(
    h: Hart,
    given: usize,
    base: u64,
    bytes: &[u8],
    kind: u64,
    address: u64,
    width: u64,
    out: &mut [u64],
) -> u64
    ensures { (result, out.new) ≡ put_kind given translation_size kind out.old (λ k. translation_words (translated h base bytes.now k address width)) }
{
    if layout::misfit(given, out.len(), TRANSLATION) {
        return 1;
    }
    let Ok(kind) = Kind::try_from(kind) else {
        return 2;
    };
    translate_into(h, base, bytes, kind, address, width, &mut *out);
    0
}

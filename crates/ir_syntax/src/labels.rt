//! The labels that the grammar knows, by the text that begins them.
ghost use Rattle.ir_laws.specs.Label.{row};
ghost use Rattle.ir_laws.specs.Word.{label_words};
ghost use Rattle.ir_syntax.specs.Labels.{bucket_of, buckets, is_in_bucket};
ghost use Rattle.std.specs.Prelude.{◌≡◌, ◌<◌, filter, length, map};

use ir_laws::Word;

/// The labels of each bucket, in the order of the grammar's list.
fn buckets() -> &'static [&'static [Word]]
    ensures rows { map (λ b. b.now) result.now ≡ buckets 0 32 }
    ensures count { length result.now ≡ 32 }
{
    &[
        &[],
        &[],
        &[],
        &[],
        &[],
        &[],
        &[Word::BoolType],
        &[],
        &[],
        &[],
        &[],
        &[Word::FnPtrType, Word::ErasedRegion],
        &[],
        &[],
        &[],
        &[],
        &[],
        &[],
        &[],
        &[],
        &[],
        &[Word::ReferenceType],
        &[],
        &[Word::U8Type],
        &[],
        &[
            Word::TupleType,
            Word::StaticRegion,
            Word::CanonicalVariable,
            Word::BoundVariable,
        ],
        &[],
        &[Word::UnsafeBinderType],
        &[],
        &[],
        &[],
        &[],
    ]
}

/// The number of the bucket in which the labels of this text stand.
fn bucket_of(text: &[u8]) -> usize
    ensures number { result ≡ bucket_of text.now }
    ensures few { result < 32 }
{
    match text.first() {
        Some(first) => (usize::from(*first) + text.len() % 32) % 32,
        None => 0,
    }
}

/// The labels of the text, and others of its bucket.
pub(crate) fn labels_near(text: &[u8]) -> &'static [Word]
    ensures { result.now ≡ filter (is_in_bucket (bucket_of text.now)) label_words }
{
    buckets()[bucket_of(text)]
}

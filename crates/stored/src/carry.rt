// The records of the lent tables come over into the room: those kept, each named by the places there.
ghost use Rattle.stored.specs.Maps.{Names};
ghost use Rattle.stored.specs.Carried.{WordsCarried, ConstraintBytes, EditBytes, BytesCarried, RealsCarried, Carried};

use crate::parts::{split, split_named};
use crate::places::{tag_places, variable_places};
use crate::plans::Plans;
use layout::cells::PLACE_ROOM;
use sparse::{Bytes, MOST_CONSTRAINTS, MOST_TERMS, Reals, Words};

fn carry_words(words: &mut Words, from: &Words, plans: Plans)
    ensures { WordsCarried plans.constraints plans.edits from.now words.old words.new }
{
    let c = plans.constraints;
    let e = plans.edits;
    words[sparse::CONSTRAINT_COUNT] = (c.at + c.free + c.rest) as u64;
    words[sparse::EDIT_COUNT] = (e.at + e.free + e.rest) as u64;
    split(words, from, sparse::CONSTRAINT_NUMBERS, MOST_CONSTRAINTS, c);
    split(words, from, sparse::CONSTRAINT_GROUPS, MOST_CONSTRAINTS, c);
}

fn constraint_bytes(bytes: &mut Bytes, from: &Bytes, tags: &[u8; PLACE_ROOM], plans: Plans)
    ensures { ConstraintBytes tags.now plans.constraints from.now bytes.old bytes.new }
{
    let c = plans.constraints;
    split_named(
        bytes,
        from,
        tags,
        sparse::CONSTRAINT_MARKERS,
        MOST_CONSTRAINTS,
        c,
    );
    split_named(
        bytes,
        from,
        tags,
        sparse::CONSTRAINT_OTHERS,
        MOST_CONSTRAINTS,
        c,
    );
    split(bytes, from, sparse::TERM_COUNTS, MOST_CONSTRAINTS, c);
}

fn edit_bytes(
    bytes: &mut Bytes,
    from: &Bytes,
    tags: &[u8; PLACE_ROOM],
    vars: &[u8; PLACE_ROOM],
    plans: Plans,
)
    ensures { EditBytes tags.now vars.now plans.edits from.now bytes.old bytes.new }
{
    let e = plans.edits;
    split_named(
        bytes,
        from,
        vars,
        sparse::EDIT_VARIABLES,
        MOST_CONSTRAINTS,
        e,
    );
    split_named(bytes, from, tags, sparse::EDIT_MARKERS, MOST_CONSTRAINTS, e);
    split_named(bytes, from, tags, sparse::EDIT_OTHERS, MOST_CONSTRAINTS, e);
}

fn carry_bytes(
    bytes: &mut Bytes,
    from: &Bytes,
    tags: &[u8; PLACE_ROOM],
    vars: &[u8; PLACE_ROOM],
    plans: Plans,
)
    ensures { BytesCarried tags.now vars.now plans.constraints plans.terms plans.edits from.now bytes.old bytes.new }
{
    constraint_bytes(bytes, from, tags, plans);
    edit_bytes(bytes, from, tags, vars, plans);
    split_named(bytes, from, vars, sparse::TERMS, MOST_TERMS, plans.terms);
    split(
        bytes,
        from,
        sparse::RELATIONS,
        MOST_CONSTRAINTS,
        plans.constraints,
    );
}

fn carry_reals(reals: &mut Reals, from: &Reals, plans: Plans)
    ensures { RealsCarried plans.constraints plans.terms plans.edits from.now reals.old reals.new }
{
    let c = plans.constraints;
    let e = plans.edits;
    split(
        reals,
        from,
        sparse::CONSTRAINT_STRENGTHS,
        MOST_CONSTRAINTS,
        c,
    );
    split(reals, from, sparse::EDIT_STRENGTHS, MOST_CONSTRAINTS, e);
    split(reals, from, sparse::SUGGESTIONS, MOST_CONSTRAINTS, e);
    split(reals, from, sparse::COEFFICIENTS, MOST_TERMS, plans.terms);
    split(
        reals,
        from,
        sparse::CONSTRAINT_CONSTANTS,
        MOST_CONSTRAINTS,
        c,
    );
}

pub fn carry(
    words: &mut Words,
    bytes: &mut Bytes,
    reals: &mut Reals,
    fwords: &Words,
    fbytes: &Bytes,
    freals: &Reals,
    plans: Plans,
)
    requires names { Names fwords.now fbytes.now }
    requires names_2 { Names words.old bytes.old }
    ensures { Carried plans.constraints plans.terms plans.edits fwords.now fbytes.now freals.now words.old bytes.old reals.old words.new bytes.new reals.new }
{
    let tags = tag_places(fwords, fbytes, words, bytes);
    let vars = variable_places(fwords, fbytes, words, bytes);
    carry_words(words, fwords, plans);
    carry_bytes(bytes, fbytes, &tags, &vars, plans);
    carry_reals(reals, freals, plans);
}

// The records of the lent tables come over into the room, renumbered, with one left behind, put in or changed.
ghost use Rattle.std.specs.Prelude.{◌≡◌, true, ◌+◌, ◌≤◌, ◌<◌};
ghost use Rattle.steps.specs.Number.{zero64};
ghost use Rattle.steps.specs.State.{comparison_of};
ghost use Rattle.steps.specs.Tests.{keep_constraint, keep_edit, drop_edit};
ghost use Rattle.steps.specs.Readable.{readable};
ghost use Rattle.layout.specs.Layout.{comparison_code, term_room};
ghost use Rattle.changes.specs.tags.Tags.{relation_of};
ghost use Rattle.sparse.specs.Places.{most_constraints};
ghost use Rattle.sparse.specs.Sparse.{symbol_count, constraint_count, edit_count, edit_of, read};
ghost use Rattle.changes.specs.terms.Terms.{terms_of};
ghost use Rattle.waist.specs.Tags.{tag_at};
ghost use Rattle.solver.specs.Bringing.{brought, Comes, Ends};
ghost use Rattle.solver.specs.Suggesting.{suggested};
ghost use Rattle.sparse.specs.Tables.{held, lent, Same};

use changes::tags::Relation;
use changes::terms::Pack;
use sparse::tables::{Tables, TablesMut};
use stored::{new, records};

// The j-th edit stays behind.
pub fn without_edit(tables: &Tables, room: &mut TablesMut, j: usize)
    requires comes { Comes (lent tables.now) (held room.old) }
    requires j_bound { j < edit_count (lent tables.now) }
    requires wvalues_value { readable (brought (read (lent tables.now)).constraints (drop_edit (edit_of (lent tables.now) j).variable (read (lent tables.now)).edits) (held room.old)) ≡ true }
    ensures does { Ends (held room.old) (read (lent tables.now)).constraints (drop_edit (edit_of (lent tables.now) j).variable (read (lent tables.now)).edits) (held room.new) }
    ensures same { Same room.old room.new }
{
    records::drop_edit(
        room.words,
        room.bytes,
        room.reals,
        tables.words,
        tables.bytes,
        tables.reals,
        j,
    );
}

// Which of the three it is, as the tables have it.
fn kind_of(relation: Relation) -> u8
    ensures { result ≡ comparison_code (comparison_of (relation_of relation)) }
{
    match relation {
        Relation::AtMost(_) => 0,
        Relation::Equal(_) => 1,
        Relation::AtLeast(_) => 2,
    }
}

// A constraint comes to its place by ascending number; the strength is its relation's.
pub fn with_constraint(
    tables: &Tables,
    room: &mut TablesMut,
    n: u32,
    g: u16,
    relation: Relation,
    strength: f64,
    constant: f64,
    marker: u8,
    other: u8,
    p: Pack,
)
    requires comes { Comes (lent tables.now) (held room.old) }
    requires le_marker { 1 ≤ marker }
    requires marker_bound { marker ≤ symbol_count (held room.old) }
    requires other_bound { other ≤ symbol_count (held room.old) }
    requires values_bound { constraint_count (lent tables.now) + edit_count (lent tables.now) < most_constraints }
    requires count_le_term_room { p.count ≤ term_room }
    requires wvalues_value { readable (brought (keep_constraint (record { number = n; group = g; comparison = comparison_of (relation_of relation); strength = strength; constant = constant; terms = terms_of p; tag = tag_at (held room.old) marker other }) (read (lent tables.now)).constraints) (read (lent tables.now)).edits (held room.old)) ≡ true }
    ensures does { Ends (held room.old) (keep_constraint (record { number = n; group = g; comparison = comparison_of (relation_of relation); strength = strength; constant = constant; terms = terms_of p; tag = tag_at (held room.old) marker other }) (read (lent tables.now)).constraints) (read (lent tables.now)).edits (held room.new) }
    ensures same { Same room.old room.new }
{
    let kind = kind_of(relation);
    let record = new::ConstraintRecord {
        number: n,
        group: g,
        marker,
        other,
        relation: kind,
        strength,
        constant,
        terms: p,
    };
    new::keep_constraint(
        room.words,
        room.bytes,
        room.reals,
        tables.words,
        tables.bytes,
        tables.reals,
        record,
    );
}

// An edit comes to its place by ascending variable number.
pub fn with_edit(
    tables: &Tables,
    room: &mut TablesMut,
    n: u64,
    strength: f64,
    marker: u8,
    other: u8,
)
    requires comes { Comes (lent tables.now) (held room.old) }
    requires le_marker { 1 ≤ marker }
    requires marker_bound { marker ≤ symbol_count (held room.old) }
    requires other_bound { other ≤ symbol_count (held room.old) }
    requires values_bound { constraint_count (lent tables.now) + edit_count (lent tables.now) < most_constraints }
    requires wvalues_value { readable (brought (read (lent tables.now)).constraints (keep_edit (record { variable = n; strength = strength; tag = tag_at (held room.old) marker other; suggestion = zero64 }) (read (lent tables.now)).edits) (held room.old)) ≡ true }
    ensures does { Ends (held room.old) (read (lent tables.now)).constraints (keep_edit (record { variable = n; strength = strength; tag = tag_at (held room.old) marker other; suggestion = zero64 }) (read (lent tables.now)).edits) (held room.new) }
    ensures same { Same room.old room.new }
{
    new::keep_edit(
        room.words,
        room.bytes,
        room.reals,
        tables.words,
        tables.bytes,
        tables.reals,
        n,
        marker,
        other,
        strength,
    );
}

// The j-th edit gets the new suggestion.
pub fn with_suggestion(tables: &Tables, room: &mut TablesMut, j: usize, new: f64)
    requires comes { Comes (lent tables.now) (held room.old) }
    requires j_bound { j < edit_count (lent tables.now) }
    requires wvalues_value { readable (brought (read (lent tables.now)).constraints (keep_edit (suggested new (edit_of (lent tables.now) j)) (drop_edit (edit_of (lent tables.now) j).variable (read (lent tables.now)).edits)) (held room.old)) ≡ true }
    ensures does { Ends (held room.old) (read (lent tables.now)).constraints (keep_edit (suggested new (edit_of (lent tables.now) j)) (drop_edit (edit_of (lent tables.now) j).variable (read (lent tables.now)).edits)) (held room.new) }
    ensures same { Same room.old room.new }
{
    records::keep_records(
        room.words,
        room.bytes,
        room.reals,
        tables.words,
        tables.bytes,
        tables.reals,
    );
    records::set_suggestion(room.reals, j, new);
}

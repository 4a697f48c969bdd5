//! What the definitions of a schema say, as laws. The definitions are in `specs/`.
ghost use Rattle.std.specs.Prelude.{◌≡◌, ◌≢◌, ◌↔◌, ◌<◌, false, AllPairs, List, [], None, Ok, length};
ghost use Rattle.star_plan.specs.declared.column_def.ColumnDef.{ColumnDef};
ghost use Rattle.star_plan.specs.declared.schema.Schema.{Schema};
ghost use Rattle.star_plan.specs.declared.table_def.TableDef.{TableDef};
ghost use Rattle.star_plan.specs.Declaration.{declared_dimension, declared_fact, same_name};
ghost use Rattle.star_plan.specs.Limits.{with_dimension, with_fact};
ghost use Rattle.star_plan.specs.Repeats.{repeats};
ghost use Rattle.star_plan.specs.Schemas.{IsDeclared, ReferencesNothing};
ghost use Rattle.star_values.specs.declared.column_lists.TheConstants.{MAX_COLUMNS};
ghost use Rattle.star_plan.specs.declared.TheConstants.{MAX_DIMENSIONS};

/// A schema without tables is one that declarations give: none.
pub fn empty_schemas_are_declared()
    ensures { (schema : Schema) → schema.dimensions ≡ [] → schema.fact ≡ None → IsDeclared schema }
{}

/// A declared schema with a table whose declaration is accepted is declared.
pub fn accepted_tables_keep_a_schema_declared()
    ensures dimension { (schema : Schema) (table : TableDef) → IsDeclared schema →
        0 < length table.columns → ReferencesNothing table →
        declared_dimension schema table ≡ Ok table → IsDeclared (with_dimension schema table) }
    ensures fact { (schema : Schema) (table : TableDef) → IsDeclared schema →
        0 < length table.columns →
        declared_fact schema table ≡ Ok table → IsDeclared (with_fact schema table) }
{}

/// No column has the name of another exactly where none has that of a later one.
pub fn repeats_are_pairs()
    ensures { (columns : List ColumnDef) → (repeats same_name columns ≡ false)
        ↔ AllPairs (λ column other. column.name ≢ other.name) columns }
{}

/// The most dimensions of a schema, and the most columns of a table.
pub fn schemas_have_their_limits()
    ensures dimensions { MAX_DIMENSIONS ≡ 8 }
    ensures columns { MAX_COLUMNS ≡ 16 }
{}

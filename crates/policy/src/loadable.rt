// Whether some bundle loads to a record, memo aside: the test behind refusal 19. The record is lent, so that nothing is copied.

ghost use Rattle.std.specs.Prelude.{◌≡◌, true, ◌||◌};
ghost use Rattle.closure.specs.Closure.{circular};
ghost use Rattle.policy.specs.Table.{Kind, rows, hierarchy, prerequisite};
ghost use Rattle.policy.specs.Loadable.{table_loads};
ghost use Rattle.policy.specs.LoadableLaws.{graph_loads, lists_load, relations_load};
ghost use Rattle.policy.specs.Typed.{Typed, Tests};

use crate::Record;
use edge_index::edges::Edges;

// Whether the hierarchy or the prerequisites hold a circle, in a record whose tables load.
pub fn has_circles(rules: &Record) -> bool
    requires { (j : Kind) → table_loads rules.now j ≡ true }
    ensures { result ≡ (circular (rows hierarchy rules.now) || circular (rows prerequisite rules.now)) }
{
    tables::pairs_circular(
        rules.demarcation_count,
        rules.hierarchy_count,
        &rules.inferiors,
        &rules.superiors,
    ) || tables::pairs_circular(
        rules.principal_count,
        rules.prerequisite_count,
        &rules.prerequisites,
        &rules.dependents,
    )
}

// Kinds 02 to 04: users, edges and formulas.
fn graph_loads(rules: &Record) -> bool
    ensures { result ≡ graph_loads rules.now }
{
    let users = tables::users_load(
        rules.objects,
        rules.user_count,
        &rules.user_objects,
        &rules.user_roles,
    );
    let edges = tables::edges_load(
        rules.objects,
        rules.edge_count,
        &rules.edge_labels,
        &rules.edge_sources,
        &rules.edge_targets,
    );
    let formulas = tables::formulas_load(
        rules.formula_count,
        &rules.formula_ops,
        &rules.formula_lefts,
        &rules.formula_rights,
    );
    users & (edges & formulas)
}

// Kinds 05, 07, 08 and 0A: demarcations, principals, exclusions and methods.
fn lists_load(rules: &Record) -> bool
    ensures { result ≡ lists_load rules.now }
{
    let demarcations = tables::demarcations_load(
        rules.demarcation_count,
        &rules.demarcation_privileges,
    );
    let principals = tables::principals_load(
        rules.formula_count,
        rules.demarcation_count,
        rules.principal_count,
        &rules.principal_formulas,
        &rules.principal_demarcations,
    );
    let exclusions = tables::exclusions_load(
        rules.principal_count,
        rules.exclusion_count,
        &rules.exclusion_lows,
        &rules.exclusion_highs,
    );
    let methods = tables::methods_load(
        rules.method_count,
        &rules.method_forms,
        &rules.method_privileges,
    );
    demarcations & (principals & (exclusions & methods))
}

// Kinds 06 and 09, without circles: what relates the demarcations and the principals.
fn relations_load(rules: &Record) -> bool
    requires { lists_load rules.now ≡ true }
    ensures { result ≡ relations_load rules.now }
{
    let ranks = tables::relation_loads(
        rules.demarcation_count,
        rules.hierarchy_count,
        &rules.inferiors,
        &rules.superiors,
    );
    let needs = tables::relation_loads(
        rules.principal_count,
        rules.prerequisite_count,
        &rules.prerequisites,
        &rules.dependents,
    );
    ranks & needs
}

// What the types of a record's fields say of it. A proof sees that only where the record is handed over by value: nothing is done, and of
// the call nothing is left in a build.
fn typed(_rules: Record)
    ensures { Typed _rules }
{}

// Every table loads, neither the hierarchy nor the prerequisites hold a circle, and the index is that of the edges.
pub fn loadable(rules: &Record) -> bool
    ensures { Tests rules.now result }
{
    typed(*rules);
    if !(graph_loads(rules) & lists_load(rules)) {
        return false;
    }
    let edges = Edges {
        count: rules.edge_count,
        labels: &rules.edge_labels,
        sources: &rules.edge_sources,
        targets: &rules.edge_targets,
    };
    (0 < rules.objects) & relations_load(rules) & rules.index.agrees(&edges)
}

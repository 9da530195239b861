//! Laws of the definitions of access, which the contracts of empty functions state.
ghost use Rattle.site_access.specs.Laws.{NodePlanAnswers, CreatePlanAnswers, FieldPlanAnswers};
ghost use Rattle.site_access.specs.Exact.{NodeAccessIsExact, CreateAccessIsExact, FieldAccessIsExact};

/// The plans of reads by which access is decided give the answers that the votes of nodes, the
/// permissions and the owners of fields give.
/// <https://www.drupal.org/docs/8/api/entity-api/access-on-entities>
pub fn plans_answer()
    ensures node { NodePlanAnswers }
    ensures create { CreatePlanAnswers }
    ensures field { FieldPlanAnswers }
{}

/// What a decision about access depends on is exactly what its plan reads, whoever views and
/// whatever is there.
/// <https://www.drupal.org/docs/drupal-apis/cache-api/cacheability-of-access-results>
pub fn decisions_are_exact()
    ensures node { NodeAccessIsExact }
    ensures create { CreateAccessIsExact }
    ensures field { FieldAccessIsExact }
{}

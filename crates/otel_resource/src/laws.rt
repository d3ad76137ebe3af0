//! The laws of resources, of merging them and of reading attributes strings, over the definitions alone. Each function
//! does nothing; its contract is the law, for all values.

ghost use Rattle.std.specs.Prelude.{◌≡◌, ◌≢◌, Some, ℕ, List, [], AllPairs, codes};
ghost use Rattle.std.specs.Option.{option_or};
ghost use Rattle.std.specs.FinMap.{get, keys};
ghost use Rattle.opentelemetry.specs.Plain.{PlainKeyValue};
ghost use Rattle.otel_resource.specs.AttributesString.{IsAttributesString};
ghost use Rattle.otel_resource.specs.Resource.{PlainResource, empty_resource, merge, merged_schema, non_empty};

/// No two attributes of a resource have one key.
pub fn keys_are_distinct()
    ensures { (r : PlainResource) → AllPairs (λ x y. x ≢ y) (keys r.attributes) }
{}

/// A schema that is known is not the empty text.
pub fn a_known_schema_is_not_empty()
    ensures { (r : PlainResource) → non_empty r.schema_url ≢ Some [] }
{}

/// The empty resource without schema, merged with a resource on either side, gives that resource.
pub fn merge_has_an_identity()
    ensures left { (r : PlainResource) → merge empty_resource r ≡ r }
    ensures right { (r : PlainResource) → merge r empty_resource ≡ r }
{}

/// A resource merged with itself is itself.
pub fn merge_is_idempotent()
    ensures { (r : PlainResource) → merge r r ≡ r }
{}

/// The attributes of three resources do not depend on which two are merged first.
pub fn merged_attributes_are_associative()
    ensures { (a b c : PlainResource) → (merge (merge a b) c).attributes ≡ (merge a (merge b c)).attributes }
{}

/// Schemas do not merge associatively: two different ones and the second again give the second or none, as the first
/// two or the last two are merged first.
pub fn merged_schemas_are_not_associative()
    ensures { (merged_schema (merged_schema (codes "a") (codes "b")) (codes "b") ≡ codes "b")
        × (merged_schema (codes "a") (merged_schema (codes "b") (codes "b")) ≡ []) }
{}

/// A merged resource has at each key what the right one has there, and where that has nothing, what the left one has.
pub fn the_right_one_wins()
    ensures { (left right : PlainResource) (key : List ℕ)
        → get (merge left right).attributes key ≡ option_or (get right.attributes key) (get left.attributes key) }
{}

/// An attributes string reads in one way, and in one way only.
pub fn attributes_strings_read_once()
    ensures some { (given : List ℕ) → (pairs : List PlainKeyValue) × IsAttributesString given pairs }
    ensures once { (given : List ℕ) (pairs others : List PlainKeyValue)
        → IsAttributesString given pairs → IsAttributesString given others → pairs ≡ others }
{}

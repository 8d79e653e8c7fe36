//! Laws of names, printed texts and pages, each the contract of a function that does nothing.

ghost use Rattle.std.specs.Prelude.{◌≡◌, ◌↔◌, ℕ, List, [], ◌∷◌, Option, IfSome, All, codes};
ghost use Rattle.metrics_core.specs.declared.units.Unit.{Unit as UnitOf};
ghost use Rattle.metrics_core.specs.Keys.{KeyText, LabelText};
ghost use Rattle.prom_format.specs.Lines.{head_text, shown_label_set};
ghost use Rattle.prom_format.specs.Names.{IsMetricName, IsLabelName, sanitized_metric_name, sanitized_label_name, full_name};
ghost use Rattle.prom_format.specs.Pages.{Family, AreInRange, IsBody, IsPage, IsPrintable, body_text, page_text};
ghost use Rattle.prom_format.specs.PlainKeys.{PrintsPlainly};
ghost use Rattle.prom_format.specs.Printed.{canonical_label_value, canonical_description, escaped_label_value, escaped_description, printed_label_value, printed_description};

/// What sanitizing makes of any text is a name.
pub fn sanitized_texts_are_names()
    ensures metric { (text : List ℕ) → IsMetricName (sanitized_metric_name text) }
    ensures label { (text : List ℕ) → IsLabelName (sanitized_label_name text) }
{}

/// Sanitizing leaves a name as it is.
pub fn names_stay()
    ensures metric { (text : List ℕ) → IsMetricName text → sanitized_metric_name text ≡ text }
    ensures label { (text : List ℕ) → IsLabelName text → sanitized_label_name text ≡ text }
{}

/// A metric name with any unit, and with a suffix that is itself such a name, is a metric name. The suffixes of rows are.
pub fn full_names_are_metric_names()
    ensures full { (name : List ℕ) (unit : Option UnitOf) (suffix : Option (List ℕ))
        → IsMetricName name → IfSome suffix IsMetricName → IsMetricName (full_name name unit suffix) }
    ensures suffixes { All IsMetricName
        (codes "total" ∷ codes "sum" ∷ codes "count" ∷ codes "bucket" ∷ []) }
{}

/// Escapes tell the text that they stand for.
pub fn escapes_tell_their_text()
    ensures label_values { (x y : List ℕ) → escaped_label_value x ≡ escaped_label_value y → x ≡ y }
    ensures descriptions { (x y : List ℕ) → escaped_description x ≡ escaped_description y → x ≡ y }
{}

/// Two texts are printed alike exactly where their canonical texts are the same.
pub fn printed_alike_where_meant_alike()
    ensures label_values { (x y : List ℕ) → (printed_label_value x ≡ printed_label_value y)
        ↔ (canonical_label_value x ≡ canonical_label_value y) }
    ensures descriptions { (x y : List ℕ) → (printed_description x ≡ printed_description y)
        ↔ (canonical_description x ≡ canonical_description y) }
{}

/// What rows begin with tells the metric name and the labels.
pub fn heads_tell_names_and_labels()
    ensures { (x y : List ℕ) (xs ys : List LabelText) → IsMetricName x → IsMetricName y
        → All (λ label. IsLabelName label.key) xs → All (λ label. IsLabelName label.key) ys
        → head_text x xs ≡ head_text y ys → (x ≡ y) × (xs ≡ ys) }
{}

/// Keys that print plainly under the same global labels are told by what their rows begin with.
pub fn plain_keys_are_told_by_their_heads()
    ensures { (globals : List LabelText) (x y : KeyText) → PrintsPlainly globals x
        → PrintsPlainly globals y
        → sanitized_metric_name x.name ≡ sanitized_metric_name y.name
        → shown_label_set globals x.labels ≡ shown_label_set globals y.labels → x ≡ y }
{}

/// Families have one text, as a body and as a page: what the grammar reads as these families is that text, and where the
/// families can stand on a page, the grammar reads the text so.
pub fn one_text()
    ensures body { (bytes : List ℕ) (families : List Family) → IsBody bytes families
        → bytes ≡ body_text families }
    ensures body_read { (families : List Family) → All IsPrintable families
        → IsBody (body_text families) families }
    ensures page { (bytes : List ℕ) (families : List Family) → IsPage bytes families
        → bytes ≡ page_text families }
    ensures page_read { (families : List Family) → All IsPrintable families
        → IsPage (page_text families) families }
{}

/// A page is read in one way, and a body too: bytes are a page of one list of families at most, and a body of one at
/// most, where the values have 128 bits.
pub fn one_reading()
    ensures page { (bytes : List ℕ) (families others : List Family) → AreInRange families
        → AreInRange others
        → IsPage bytes families → IsPage bytes others → families ≡ others }
    ensures body { (bytes : List ℕ) (families others : List Family) → AreInRange families
        → AreInRange others
        → IsBody bytes families → IsBody bytes others → families ≡ others }
{}

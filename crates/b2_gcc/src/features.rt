//! The features of the gcc toolset.
ghost use Rattle.std.specs.Prelude.{◌≡◌, [], ◌∷◌, ◌++◌, true, None, OnOk, OnErr, IfErr, map, fold};
ghost use Rattle.std.specs.List.{list_all};
ghost use Rattle.b2_features.specs.Faults.{feature_fault, compose_fault, IsBy};
ghost use Rattle.b2_gcc.specs.TableDeclarations.{features_fault, composites_fault, with_composite, with_toolset, toolset_fault};
ghost use Rattle.b2_gcc.specs.Rows.{feature_in, composite_in, is_clean_feature, is_clean_composite};

use crate::owned::owned_pairs;
use b2_base::text_list::owned_texts;
use b2_features::fault::FeatureFault;
use b2_features::registry::Registry;
use std::alloc::Global;

/// A feature with its values, of which the first is the default, and its attributes.
struct FeatureRow {
    name: &'static str,
    values: &'static [&'static str],
    attributes: &'static [&'static str],
}

/// A value of a feature with its components.
struct CompositeRow {
    feature: &'static str,
    value: &'static str,
    parts: &'static [(&'static str, &'static str)],
}

/// The features, in order.
static FEATURES: [FeatureRow; 20] = [
    FeatureRow {
        name: "toolset",
        values: &["gcc"],
        attributes: &["implicit", "propagated", "symmetric"],
    },
    FeatureRow {
        name: "variant",
        values: &["debug", "release"],
        attributes: &["implicit", "composite", "propagated", "symmetric"],
    },
    FeatureRow {
        name: "optimization",
        values: &["off", "speed", "space"],
        attributes: &["propagated"],
    },
    FeatureRow {
        name: "debug-symbols",
        values: &["on", "off"],
        attributes: &["propagated"],
    },
    FeatureRow {
        name: "inlining",
        values: &["off", "on", "full"],
        attributes: &["propagated"],
    },
    FeatureRow {
        name: "runtime-debugging",
        values: &["on", "off"],
        attributes: &["propagated"],
    },
    FeatureRow {
        name: "link",
        values: &["shared", "static"],
        attributes: &["propagated"],
    },
    FeatureRow {
        name: "runtime-link",
        values: &["shared", "static"],
        attributes: &["propagated"],
    },
    FeatureRow {
        name: "threading",
        values: &["single", "multi"],
        attributes: &["propagated"],
    },
    FeatureRow {
        name: "warnings",
        values: &["on", "all", "off"],
        attributes: &["incidental"],
    },
    FeatureRow {
        name: "define",
        values: &[],
        attributes: &["free"],
    },
    FeatureRow {
        name: "cflags",
        values: &[],
        attributes: &["free"],
    },
    FeatureRow {
        name: "cxxflags",
        values: &[],
        attributes: &["free"],
    },
    FeatureRow {
        name: "linkflags",
        values: &[],
        attributes: &["free"],
    },
    FeatureRow {
        name: "include",
        values: &[],
        attributes: &["free", "path"],
    },
    FeatureRow {
        name: "location",
        values: &[],
        attributes: &["free", "path"],
    },
    FeatureRow {
        name: "library",
        values: &[],
        attributes: &["free", "dependency"],
    },
    FeatureRow {
        name: "source",
        values: &[],
        attributes: &["free", "dependency"],
    },
    FeatureRow {
        name: "dependency",
        values: &[],
        attributes: &["free", "dependency"],
    },
    FeatureRow {
        name: "use",
        values: &[],
        attributes: &["free", "dependency"],
    },
];

/// The composed values, in order.
static COMPOSITES: [CompositeRow; 2] = [
    CompositeRow {
        feature: "variant",
        value: "debug",
        parts: &[
            ("optimization", "off"),
            ("debug-symbols", "on"),
            ("inlining", "off"),
            ("runtime-debugging", "on"),
        ],
    },
    CompositeRow {
        feature: "variant",
        value: "release",
        parts: &[
            ("optimization", "speed"),
            ("debug-symbols", "off"),
            ("inlining", "full"),
            ("runtime-debugging", "off"),
            ("define", "NDEBUG"),
        ],
    },
];

fn declare_row(alloc: Global, registry: &mut Registry, row: &FeatureRow) -> Result<(), FeatureFault>
    requires { is_clean_feature (feature_in row.now) ≡ true }
    ensures ok { OnOk result (registry.new ≡ registry.old ++ feature_in row.now ∷ []) }
    ensures sound { OnOk result (feature_fault registry.old (feature_in row.now).name (feature_in row.now).values (feature_in row.now).attributes ≡ None) }
    ensures cause { IfErr result (IsBy (feature_fault registry.old (feature_in row.now).name (feature_in row.now).values (feature_in row.now).attributes)) }
    ensures err { OnErr result (registry.new ≡ registry.old) }
{
    let values = owned_texts(alloc, row.values)?;
    let attributes = owned_texts(alloc, row.attributes)?;
    registry.feature(row.name, values.as_slice(), attributes.as_slice())
}

/// Declares the features of some rows in order, up to the first that is refused.
fn declare_rows(
    alloc: Global,
    registry: &mut Registry,
    rows: &[FeatureRow],
) -> Result<(), FeatureFault>
    requires { list_all (λ row. is_clean_feature (feature_in row)) rows.now ≡ true }
    ensures ok { OnOk result (registry.new ≡ registry.old ++ map feature_in rows.now) }
    ensures sound { OnOk result (features_fault registry.old (map feature_in rows.now) ≡ None) }
    ensures cause { IfErr result (IsBy (features_fault registry.old (map feature_in rows.now))) }
{
    match rows {
        [] => Ok(()),
        [first, more @ ..] => {
            declare_row(alloc, registry, first)?;
            declare_rows(alloc, registry, more)
        }
    }
}

fn compose_row(
    alloc: Global,
    registry: &mut Registry,
    row: &CompositeRow,
) -> Result<(), FeatureFault>
    requires { is_clean_composite (composite_in row.now) ≡ true }
    ensures ok { OnOk result (registry.new ≡ with_composite registry.old (composite_in row.now)) }
    ensures sound { OnOk result (compose_fault registry.old row.now.feature.now row.now.value.now (composite_in row.now).parts ≡ None) }
    ensures cause { IfErr result (IsBy (compose_fault registry.old row.now.feature.now row.now.value.now (composite_in row.now).parts)) }
    ensures err { OnErr result (registry.new ≡ registry.old) }
{
    let parts = owned_pairs(alloc, row.parts)?;
    registry.compose(row.feature, row.value, parts.as_slice())
}

/// Composes the values of some rows in order, up to the first that is refused.
fn compose_rows(
    alloc: Global,
    registry: &mut Registry,
    rows: &[CompositeRow],
) -> Result<(), FeatureFault>
    requires { list_all (λ row. is_clean_composite (composite_in row)) rows.now ≡ true }
    ensures ok { OnOk result (registry.new ≡ fold with_composite registry.old (map composite_in rows.now)) }
    ensures sound { OnOk result (composites_fault registry.old (map composite_in rows.now) ≡ None) }
    ensures cause { IfErr result (IsBy (composites_fault registry.old (map composite_in rows.now))) }
{
    match rows {
        [] => Ok(()),
        [first, more @ ..] => {
            compose_row(alloc, registry, first)?;
            compose_rows(alloc, registry, more)
        }
    }
}

/// Declares the features of the toolset after those that are there, and composes the values of `variant`. The first that
/// is refused is the fault: a feature of the same name, or an implicit value of one, is there twice. After an
/// error a first part of them may be there.
pub fn declare_features(alloc: Global, registry: &mut Registry) -> Result<(), FeatureFault>
    ensures ok { OnOk result (registry.new ≡ with_toolset registry.old) }
    ensures sound { OnOk result (toolset_fault registry.old ≡ None) }
    ensures cause { IfErr result (IsBy (toolset_fault registry.old)) }
    ensures on_empty { registry.old ≡ [] → IfErr result (λ fault. fault ≡ FeatureFault.OutOfMemory) }
{
    declare_rows(alloc, registry, &FEATURES)?;
    compose_rows(alloc, registry, &COMPOSITES)
}

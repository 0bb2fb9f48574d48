ghost use Rattle.std.specs.Prelude.{◌≡◌, map};
ghost use Rattle.guide_toml.specs.Keys.{keys_of};

/// A table of a guide file, by the keys that it may have.
#[derive(Clone, Copy)]
pub enum TableKind {
    Guide,
    Hierarchy,
    Dependency,
    Segment,
    Loop,
    /// A node with both or neither of `seg` and `loop`.
    Unclear,
}

impl TableKind {
    /// The keys that a table of the kind may have.
    pub fn keys(self) -> &'static [&'static str]
        ensures { map (λ key. key.now) result.now ≡ keys_of self }
    {
        match self {
            TableKind::Guide => &[
                "name",
                "group",
                "set",
                "version",
                "convention",
                "dictionary",
                "tolerate_segment",
                "tolerate_element",
                "hl",
                "depends",
                "nodes",
            ],
            TableKind::Hierarchy => &["pairs", "sequential"],
            TableKind::Dependency => &["kind", "slot", "at", "codes", "target", "element"],
            TableKind::Segment => &[
                "seg",
                "min",
                "max",
                "label",
                "pick",
                "elements",
                "conditions",
            ],
            TableKind::Loop => &["loop", "min", "max", "nodes"],
            TableKind::Unclear => &[
                "seg",
                "loop",
                "min",
                "max",
                "label",
                "pick",
                "elements",
                "conditions",
                "nodes",
            ],
        }
    }
}

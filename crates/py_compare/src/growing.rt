//! Texts that grow.
ghost use Rattle.std.specs.Prelude.{◌≡◌, OnOk};
ghost use Rattle.py_text.specs.Quoting.{quoted};
ghost use Rattle.py_compare.specs.Growing.{not_begun, grown, whole_of};

use py_heap::ValueFault;
use scons_base::limits::TEXT_LIMIT;
use scons_base::{Memory, Text};
use std::alloc::Global;
use std::marker::Model;

/// A text as it grows. Past the limit of a text its bytes are counted and no longer kept.
#[derive(Drop)]
pub struct GrowingText {
    text: String,
    size: u64,
}

impl Model for GrowingText {
    ghost use Rattle.std.specs.Prelude.{string_bytes};
    ghost use Rattle.py_compare.specs.Growing.{Growth};

    ghost Value = { Growth };

    ghost view = { λ g. record { kept = string_bytes g.text; size = g.size } };
}

impl GrowingText {
    pub fn new(alloc: Global) -> GrowingText
        ensures { result ≡ not_begun }
    {
        GrowingText {
            text: String::new(alloc),
            size: 0,
        }
    }

    /// Puts a piece behind the text.
    #[tactic(auto, using(crate::proofs::Growths::growths))]
    pub fn put(&mut self, piece: &str) -> Result<(), Memory>
        ensures { OnOk result (self.new ≡ grown self.old piece.now) }
    {
        self.size = self.size.saturating_add(piece.len() as u64);
        if self.size > TEXT_LIMIT {
            self.text.clear();
        } else {
            self.text.push_str(piece)?;
        }
        Ok(())
    }

    /// Puts a text in quotes behind the text. The quoted text isn't made where it would be over the limit.
    #[tactic(auto, using(crate::proofs::Growths::growths))]
    pub fn put_quoted(&mut self, alloc: Global, piece: &str) -> Result<(), Memory>
        ensures { OnOk result (self.new ≡ grown self.old (quoted piece.now)) }
    {
        let size = self.size.saturating_add(py_text::quoted_length(piece));
        if size > TEXT_LIMIT {
            self.size = size;
            self.text.clear();
        } else {
            let shown = py_text::quoted(alloc, piece)?;
            self.put(shown.as_str())?;
        }
        Ok(())
    }

    /// How many bytes the text has, or 2^64 - 1 where there are more.
    pub fn size(&self) -> u64
        ensures { result ≡ self.now.size }
    {
        self.size
    }

    /// The text, as far as it is kept.
    pub fn into_kept(self) -> Text
        ensures { result ≡ self.kept }
    {
        Text::new(self.text)
    }

    /// The text, if it is no longer than a text may be.
    #[tactic(auto, using(crate::proofs::ShownLimits::shown_limits))]
    pub fn into_text(self) -> Result<Text, ValueFault>
        ensures { result ≡ whole_of self }
    {
        let size = self.size;
        if size > TEXT_LIMIT {
            return Err(ValueFault::TooBig(size));
        }
        Ok(self.into_kept())
    }
}

//! A setting with the words that mean it.

ghost use Rattle.std.specs.Prelude.{◌≡◌, IfOk, map};
ghost use Rattle.krates_cm.specs.Document.{text_view};
ghost use Rattle.krates_words.specs.Stated.{IsOfOneChoice, IsStatedBy};

use crate::choice::Choice;
use krates_document::Setting;
use std::alloc::{AllocError, Global};
use std::marker::Model;

/// A setting with the words that mean it, as certificates have them. Both come from one choice, so the words of one setting never stand
/// beside another.
#[derive(Debug, Drop)]
pub struct StatedSetting {
    setting: Setting,
    words: Vec<String>,
}

impl Model for StatedSetting {
    ghost use Rattle.krates_cm.specs.Document.{texts_view};
    ghost use Rattle.krates_words.specs.Stated.{IsOfOneChoice, StatedModel};

    ghost Value = { StatedModel };

    ghost view = { λ s. record { setting = s.setting; words = texts_view s.words } };

    ghost invariant = { λ s. IsOfOneChoice (record { setting = s.setting; words = texts_view s.words }) };
}

impl Choice {
    /// The setting that is chosen, with the words that mean it. The only error is running out of memory. Time O(length of what is chosen).
    ///
    /// ```text
    /// let stated = choice.stated(alloc)?;
    /// ```
    pub fn stated(&self, alloc: Global) -> Result<StatedSetting, AllocError>
        ensures { IfOk result (IsStatedBy self.now) }
    {
        let setting = self.setting(alloc, &[])?;
        let words = self.words(alloc)?;
        Ok(StatedSetting { setting, words })
    }
}

impl StatedSetting {
    /// The setting. Time O(1).
    pub fn setting(&self) -> &Setting
        ensures { result.now ≡ self.now.setting }
    {
        &self.setting
    }

    /// The words that mean it, in their order. Time O(1).
    pub fn words(&self) -> &[String]
        ensures { map text_view result.now ≡ self.now.words }
    {
        &self.words
    }

    /// What always holds: there is a choice that means the setting and has these words.
    pub fn agrees(&self)
        ensures { IsOfOneChoice self.now }
    {
        let _ = &self.setting;
    }
}

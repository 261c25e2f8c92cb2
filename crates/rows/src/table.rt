//! Rows as both tables have them: a category, codes, and the form of the operands behind them.

ghost use Rattle.std.specs.Prelude.{◌≡◌, ℕ, List, Option};
ghost use Rattle.head.specs.declared.setting.Setting.{Setting as S};

use crate::codes::Codes;
use crate::row::{Body, Row};
use head::Setting;

/// A form of operands, with what it makes of them.
pub trait OperandForm {
    type Meaning: Drop;

    ghost makes: { Self → S → List ℕ → Option Self.Meaning };

    /// What operands mean, where their code stands for a setting; nothing if they have another form.
    fn read(&self, setting: Setting, operands: &[u8]) -> Option<Self::Meaning>
        ensures { result ≡ makes self.now setting operands.now };
}

/// A row of a table, by the form of its operands.
#[derive(Clone, Copy, Debug, PartialEq, Eq)]
pub struct TableRow<F> {
    pub category: u8,
    pub codes: Codes,
    pub form: F,
}

// A row on one line; a constant may not call a function that makes it.
macro_rules! row {
    ($category:expr, $codes:expr, $form:expr) => {
        TableRow {
            category: $category,
            codes: $codes,
            form: $form,
        }
    };
}

pub(crate) use row;

impl<F: OperandForm> Row for TableRow<F> {
    ghost use Rattle.rows.specs.Rows.{row_has, row_reads};

    type Meaning = F::Meaning;

    ghost has = { row_has };

    ghost reads = { row_reads F.makes };

    fn covers(&self, body: &Body<'_>) -> bool {
        // The code first: rows differ by it, and a table of them becomes one jump.
        self.codes.setting(body.code).is_some() && body.category == self.category
    }

    #[inline]
    fn read(&self, body: &Body<'_>) -> Option<F::Meaning> {
        let setting = self.codes.setting(body.code)?;
        self.form.read(setting, body.operands)
    }
}

// What the low bits of an operator's op say where its right side is one word: which operator it is, and above that the kind of word. Each is named, since patterns take
// names and no sums.
use layout::{ops, parts};

pub(crate) const SUM_LITERAL: u32 = parts::RIGHT * ops::LITERAL + ops::SUM;

pub(crate) const DIFFERENCE_LITERAL: u32 = parts::RIGHT * ops::LITERAL + ops::DIFFERENCE;

pub(crate) const PRODUCT_LITERAL: u32 = parts::RIGHT * ops::LITERAL + ops::PRODUCT;

pub(crate) const DIV_LITERAL: u32 = parts::RIGHT * ops::LITERAL + ops::DIV;

pub(crate) const MOD_LITERAL: u32 = parts::RIGHT * ops::LITERAL + ops::MOD;

pub(crate) const LESS_LITERAL: u32 = parts::RIGHT * ops::LITERAL + ops::LESS;

pub(crate) const LESS_EQUAL_LITERAL: u32 = parts::RIGHT * ops::LITERAL + ops::LESS_EQUAL;

pub(crate) const GREATER_LITERAL: u32 = parts::RIGHT * ops::LITERAL + ops::GREATER;

pub(crate) const GREATER_EQUAL_LITERAL: u32 = parts::RIGHT * ops::LITERAL + ops::GREATER_EQUAL;

pub(crate) const EQUAL_LITERAL: u32 = parts::RIGHT * ops::LITERAL + ops::EQUAL;

pub(crate) const UNEQUAL_LITERAL: u32 = parts::RIGHT * ops::LITERAL + ops::UNEQUAL;

pub(crate) const XOR_LITERAL: u32 = parts::RIGHT * ops::LITERAL + ops::XOR;

pub(crate) const AND_LITERAL: u32 = parts::RIGHT * ops::LITERAL + ops::AND;

pub(crate) const OR_LITERAL: u32 = parts::RIGHT * ops::LITERAL + ops::OR;

pub(crate) const SUM_MODULE_WORD: u32 = parts::RIGHT * ops::MODULE_SLOT + ops::SUM;

pub(crate) const DIFFERENCE_MODULE_WORD: u32 = parts::RIGHT * ops::MODULE_SLOT + ops::DIFFERENCE;

pub(crate) const PRODUCT_MODULE_WORD: u32 = parts::RIGHT * ops::MODULE_SLOT + ops::PRODUCT;

pub(crate) const DIV_MODULE_WORD: u32 = parts::RIGHT * ops::MODULE_SLOT + ops::DIV;

pub(crate) const MOD_MODULE_WORD: u32 = parts::RIGHT * ops::MODULE_SLOT + ops::MOD;

pub(crate) const LESS_MODULE_WORD: u32 = parts::RIGHT * ops::MODULE_SLOT + ops::LESS;

pub(crate) const LESS_EQUAL_MODULE_WORD: u32 = parts::RIGHT * ops::MODULE_SLOT + ops::LESS_EQUAL;

pub(crate) const GREATER_MODULE_WORD: u32 = parts::RIGHT * ops::MODULE_SLOT + ops::GREATER;

pub(crate) const GREATER_EQUAL_MODULE_WORD: u32 = parts::RIGHT * ops::MODULE_SLOT
    + ops::GREATER_EQUAL;

pub(crate) const EQUAL_MODULE_WORD: u32 = parts::RIGHT * ops::MODULE_SLOT + ops::EQUAL;

pub(crate) const UNEQUAL_MODULE_WORD: u32 = parts::RIGHT * ops::MODULE_SLOT + ops::UNEQUAL;

pub(crate) const XOR_MODULE_WORD: u32 = parts::RIGHT * ops::MODULE_SLOT + ops::XOR;

pub(crate) const AND_MODULE_WORD: u32 = parts::RIGHT * ops::MODULE_SLOT + ops::AND;

pub(crate) const OR_MODULE_WORD: u32 = parts::RIGHT * ops::MODULE_SLOT + ops::OR;

pub(crate) const SUM_CALL_WORD: u32 = parts::RIGHT * ops::CALL_SLOT + ops::SUM;

pub(crate) const DIFFERENCE_CALL_WORD: u32 = parts::RIGHT * ops::CALL_SLOT + ops::DIFFERENCE;

pub(crate) const PRODUCT_CALL_WORD: u32 = parts::RIGHT * ops::CALL_SLOT + ops::PRODUCT;

pub(crate) const DIV_CALL_WORD: u32 = parts::RIGHT * ops::CALL_SLOT + ops::DIV;

pub(crate) const MOD_CALL_WORD: u32 = parts::RIGHT * ops::CALL_SLOT + ops::MOD;

pub(crate) const LESS_CALL_WORD: u32 = parts::RIGHT * ops::CALL_SLOT + ops::LESS;

pub(crate) const LESS_EQUAL_CALL_WORD: u32 = parts::RIGHT * ops::CALL_SLOT + ops::LESS_EQUAL;

pub(crate) const GREATER_CALL_WORD: u32 = parts::RIGHT * ops::CALL_SLOT + ops::GREATER;

pub(crate) const GREATER_EQUAL_CALL_WORD: u32 = parts::RIGHT * ops::CALL_SLOT + ops::GREATER_EQUAL;

pub(crate) const EQUAL_CALL_WORD: u32 = parts::RIGHT * ops::CALL_SLOT + ops::EQUAL;

pub(crate) const UNEQUAL_CALL_WORD: u32 = parts::RIGHT * ops::CALL_SLOT + ops::UNEQUAL;

pub(crate) const XOR_CALL_WORD: u32 = parts::RIGHT * ops::CALL_SLOT + ops::XOR;

pub(crate) const AND_CALL_WORD: u32 = parts::RIGHT * ops::CALL_SLOT + ops::AND;

pub(crate) const OR_CALL_WORD: u32 = parts::RIGHT * ops::CALL_SLOT + ops::OR;

//! Parsers that run a part under another context, on another state or over another input; parsers that are configured by the
//! context; states; and parsers that give the slice or the span of what a part took.
#![tactic(auto)]

pub mod config;
pub mod config_iter;
pub mod configure;
pub mod configurer;
pub mod contextual;
pub mod ignore_with_ctx;
pub mod ignore_with_ctx_items;
pub mod items_under;
pub mod iter_configure;
pub mod just_cfg;
pub mod map_ctx;
pub mod nested_in;
pub mod one_of_cfg;
pub mod repeated_cfg;
pub mod spanned;
pub mod states;
pub mod then_with_ctx;
pub mod then_with_ctx_items;
pub mod to_slice;
pub mod to_span;
pub mod try_iter_configure;
pub mod under;
pub mod with_ctx;
pub mod with_state;
mod within;

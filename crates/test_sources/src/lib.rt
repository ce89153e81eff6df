//! Tests of sources, of the translator and of the assembler's parts, over their libraries' public calls.
//! `checks/refuse-places` refuses each allocation of the first pass in turn; whole sources are tested by scripts.
#![tactic(auto)]

#[cfg(test)]
mod expression_memory;
#[cfg(test)]
mod image_row;
#[cfg(test)]
mod image_sections;
#[cfg(test)]
mod item_lists;
#[cfg(test)]
mod listing;
#[cfg(test)]
mod long_expressions;
#[cfg(test)]
mod operand_memory;
#[cfg(test)]
mod operand_tables;
#[cfg(test)]
mod pass1_faults;
#[cfg(test)]
mod pass1_places;
#[cfg(test)]
mod pass1_texts;
#[cfg(test)]
mod source;
#[cfg(test)]
mod sources;
#[cfg(test)]
mod symbols;
#[cfg(test)]
mod texts;

// Programs as texts with lines of their tables, and whole calls.
mod examples;
mod word_examples;
mod worked;

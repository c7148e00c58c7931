// Worked examples as texts, calls over devices in memory, and tables of broken texts and failing devices.
mod chain_examples;
mod devices;
mod examples;
mod hostile;
mod motion_examples;
mod refusals;
mod run_examples;
mod shared_examples;
mod stage_examples;
mod worked;

// Points of tables with values on the border: marks, faces in their order, and the numbering over the faces. Definitions and laws, no code.
#![tactic(auto)]

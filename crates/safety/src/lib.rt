// Theorems alone: type safety, over trees and over the words of an image, a heap and inputs. No code.
#![tactic(auto)]
